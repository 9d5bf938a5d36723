//! Scopes of signals: the names that stand in front of a signal's name.

ghost use Rattle.std.specs.Prelude.{◌≡◌};
ghost use Rattle.pmb_vcd_head.specs.Scopes.{close as close_step, lose as lose_step, no_scopes, with_opened};

use arrayvec::ArrayVec;

/// The most bytes of a name with its scopes.
pub const MOST_NAME: usize = 255;

/// A name.
pub type Name = ArrayVec<u8, MOST_NAME>;

/// The scopes that are open.
#[derive(Drop)]
pub struct Scopes {
    /// Their names, each with a point behind it.
    pub text: Name,
    /// How many bytes of that text stand in front of each.
    pub starts: Name,
    /// How many more are open, whose names have no room.
    pub lost: u64,
}

impl Scopes {
    /// None is open.
    pub fn new() -> Scopes
        ensures { result ≡ no_scopes }
    {
        Scopes {
            text: Name::new(),
            starts: Name::new(),
            lost: 0,
        }
    }

    /// Opens a scope within those that are open.
    pub fn open(&mut self, name: &[u8])
        ensures { self.new ≡ with_opened self.old name.now }
    {
        if self.lost > 0 {
            self.lose();
            return;
        }
        if self.text.len() + name.len() >= MOST_NAME {
            self.lose();
            return;
        }
        if self.starts.len() >= MOST_NAME {
            self.lose();
            return;
        }
        let start = self.text.len() as u8;
        let _ = self.starts.try_push(start);
        let _ = self.text.try_extend_from_slice(name);
        let _ = self.text.try_push(b'.');
    }

    /// Opens a scope whose name has no room.
    pub fn lose(&mut self)
        ensures { self.new ≡ lose_step self.old }
    {
        self.lost = self.lost.saturating_add(1);
    }

    /// Closes the scope that was opened last, if one is open.
    pub fn close(&mut self)
        ensures { self.new ≡ close_step self.old }
    {
        if self.lost > 0 {
            self.lost -= 1;
            return;
        }
        if let Some(start) = self.starts.pop() {
            self.text.truncate(usize::from(start));
        }
    }
}
