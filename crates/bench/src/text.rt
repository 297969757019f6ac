// The text that waits to be handed on, in a buffer that no run outgrows.
ghost use Rattle.std.specs.Prelude.{◌≡◌, [], ◌++◌, ◌+◌, ◌≤◌, length};

use console::texts::put;

// The first bytes of the buffer wait.
#[derive(Drop)]
pub(crate) struct Text {
    bytes: [u8; 65536],
    pub(crate) laid: usize,
    ghost fits: { laid ≤ 65536 },
}

impl Text {
    ghost use Rattle.bench.specs.Text.{waiting};

    pub(crate) fn empty() -> Self
        ensures text { waiting result ≡ [] }
        ensures laid { result.laid ≡ 0 }
    {
        Text {
            bytes: io::large_buffer(),
            laid: 0,
        }
    }

    // Lays more text after what waits.
    pub(crate) fn lay(&mut self, more: &[u8])
        requires { self.old.laid + length more.now ≤ 65536 }
        ensures text { waiting self.new ≡ waiting self.old ++ more.now }
        ensures laid { self.new.laid ≡ self.old.laid + length more.now }
    {
        self.laid = put(&mut self.bytes, self.laid, more);
    }

    pub(crate) fn as_slice(&self) -> &[u8]
        ensures { result.now ≡ waiting self.now }
    {
        &self.bytes[..self.laid]
    }

    // Lets nothing wait.
    pub(crate) fn clear(&mut self)
        ensures text { waiting self.new ≡ [] }
        ensures laid { self.new.laid ≡ 0 }
    {
        self.laid = 0;
    }
}
