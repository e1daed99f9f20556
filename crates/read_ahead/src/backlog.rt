//! How much of an input lies ready. What a source gives doesn't rest on it: it bounds how far inputs are read ahead, and tells how
//! much a read gives.
ghost use Rattle.std.specs.Prelude.{◌≡◌, ◌-◌, false, not, true, MatchOption};
ghost use Rattle.read_ahead.specs.Shares.{is_full, is_low, with_block};

/// How much of an input was read and not given yet.
#[derive(Drop)]
pub struct Backlog {
    pub bytes: usize,
    /// The blocks that weren't begun.
    pub blocks: usize,
    /// No more of it is given: what the input still gives is thrown away.
    pub left: bool,
}

impl Backlog {
    /// Of an input that gave nothing yet.
    pub fn new() -> Backlog
        ensures { result ≡ record { bytes = 0; blocks = 0; left = false } }
    {
        Backlog {
            bytes: 0,
            blocks: 0,
            left: false,
        }
    }

    /// Whether a block of so many bytes has to wait.
    pub fn is_full(&self, room: usize, blocks: usize, count: usize) -> bool
        ensures { result ≡ is_full room blocks count self.now }
    {
        if self.left || self.bytes == 0 {
            return false;
        }
        self.blocks >= blocks || self.bytes > room || count > room - self.bytes
    }

    /// A block of so many bytes lies ready, unless no more is given.
    pub fn put(&mut self, count: usize)
        ensures { self.new ≡ with_block count self.old }
    {
        if self.left {
            return;
        }
        self.bytes = self.bytes.saturating_add(count);
        self.blocks = self.blocks.saturating_add(1);
    }

    /// A block of so many bytes lies ready, unless it has to wait: none then. Otherwise answers whether more of the input is given.
    pub fn try_put(&mut self, room: usize, blocks: usize, count: usize) -> Option<bool>
        ensures { MatchOption result
            ((is_full room blocks count self.old ≡ true) × (self.new ≡ self.old))
            (λ given. (is_full room blocks count self.old ≡ false) × (self.new ≡ with_block count self.old) × (given ≡ not self.old.left)) }
    {
        if self.is_full(room, blocks, count) {
            return None;
        }
        let is_given = !self.left;
        self.put(count);
        Some(is_given)
    }

    /// Whether so few bytes lie ready that a thread may go on that waits for room.
    pub fn is_low(&self, room: usize) -> bool
        ensures { result ≡ is_low room self.now }
    {
        self.bytes <= room - room / 16
    }

    /// A block was begun.
    pub fn begin(&mut self)
        ensures { self.new ≡ record self.old { blocks = self.old.blocks - 1 } }
    {
        self.blocks = self.blocks.saturating_sub(1);
    }

    /// A read was answered with so many bytes.
    pub fn give(&mut self, count: usize)
        ensures { self.new ≡ record self.old { bytes = self.old.bytes - count } }
    {
        self.bytes = self.bytes.saturating_sub(count);
    }

    /// No more of it is given, and nothing of it lies ready any more.
    pub fn leave(&mut self)
        ensures { self.new ≡ record { bytes = 0; blocks = 0; left = true } }
    {
        self.bytes = 0;
        self.blocks = 0;
        self.left = true;
    }
}
