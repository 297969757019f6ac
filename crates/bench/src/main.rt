// The bench: reads commands line by line from standard input, does them over 64 zero bytes, answers each, and shows the memory.
#![tactic(auto)]

ghost use Rattle.std.specs.Prelude.{◌≡◌, true, [], ℕ, ◌-◌, ◌≤◌, length};
ghost use Rattle.io.specs.Counts.{IsPrefixLen};
ghost use Rattle.bench.specs.Inner.{session_of, with_text};
ghost use Rattle.bench.specs.Played.{progress_of, Turned, ReadToEnd, Played};

mod session;
mod text;

use crate::session::Bench;
use std::io::{Input, Print, Read};

// Reads once, and answers how many bytes came, none at the input's end. Which bytes the system delivers no promise can say.
fn hear(rt: &impl Input, piece: &mut [u8]) -> usize
    ensures prefix_len { IsPrefixLen result piece.new }
    ensures upper_bound { result ≤ length piece.old }
{
    rt.reader().read(piece).unwrap_or(0)
}

// Hands the text that waits on to the system, and lets none wait. That the system writes it no promise can say.
#[tactic(auto, unfolding(crate::specs::Inner::session_of, crate::specs::Inner::with_text))]
fn hand_on(rt: &impl Print, bench: &mut Bench)
    ensures session { session_of bench.new ≡ with_text [] (session_of bench.old) }
    ensures none { bench.new.text.laid ≡ 0 }
{
    let _ = rt.write_all(bench.text.as_slice());
    bench.text.clear();
}

// Reads once into the piece, takes what came there, and hands on what it prints; answers whether there may be more.
fn turn(rt: &(impl Input + Print), bench: &mut Bench, piece: &mut [u8]) -> bool
    requires none { bench.old.text.laid ≡ 0 }
    requires room { length piece.old ≤ 1024 }
    ensures turned { (left : ℕ)
        → Turned piece.new (progress_of bench.old true left) (progress_of bench.new result (left - 1)) }
    ensures none { bench.new.text.laid ≡ 0 }
{
    let came = hear(rt, piece);
    bench.take_piece(&piece[..came]);
    hand_on(rt, bench);
    0 < came
}

// Reads to the input's end. A proved loop has to end, and nothing says that the input does, so the reads are counted to a number
// that no run reaches.
fn read_all(rt: &(impl Input + Print), bench: &mut Bench)
    requires { bench.old.text.laid ≡ 0 }
    ensures read { ReadToEnd (session_of bench.old) (session_of bench.new) }
    ensures none { bench.new.text.laid ≡ 0 }
{
    let mut piece = [0; 1024];
    for _ in 0..u64::MAX {
        if !turn(rt, bench, &mut piece) {
            return;
        }
    }
}

// Plays the whole input over zero bytes, and hands on what it prints.
fn play(rt: &(impl Input + Print)) -> Bench
    ensures { Played (session_of result) }
{
    let mut bench = Bench::fresh();
    read_all(rt, &mut bench);
    bench.end_input();
    hand_on(rt, &mut bench);
    bench
}

fn main(rt: HostRuntime) {
    play(&rt);
}
