// The laws of the record: validity, round trips, reads after writes, refused calls. No code: `specs/` has what the statements mean, `proofs/` why they hold.
#![tactic(auto)]
