// What a walk counts, which both walks share, and what the whole-number walk holds beside it.
ghost use Rattle.std.specs.Prelude.{◌≡◌, true, ◌^◌, ◌≤◌, ◌<◌, eqb, ltb};
ghost use Rattle.walk.specs.Progress.{begun, allows_more, counted_by, counted_more, drops};
ghost use Rattle.walk.specs.Progress.{made_for, Finished, Visited};
ghost use Rattle.walk.specs.FrozenBlocks.{starts_block};

// The visits, and whether one was wanted that is not allowed; the index that the rows are made
// for; m, and the allowance.
#[derive(Clone, Copy)]
pub struct Count {
    pub visits: u32,
    pub out: bool,
    pub index: u32,
    pub m: u32,
    pub allowed: u32,
}

impl Count {
    // Before the first visit. At index 0 all rows are made, whatever index they are said to be made
    // for before: the last, of which no row has to be there.
    pub fn start(m: u32, allowed: u32) -> Count
        requires { 2 ^ m ≤ 256 }
        ensures { result ≡ begun m allowed }
    {
        Count {
            visits: 0,
            out: false,
            index: (1u32 << m) - 1,
            m,
            allowed,
        }
    }

    // One visit more, or out: tested before it is counted, so that no allowance wraps.
    pub fn visit(&mut self) -> bool
        ensures { Visited self.old result self.new }
    {
        if self.visits < self.allowed {
            self.visits += 1;
            return true;
        }
        self.out = true;
        false
    }

    // n visits more are allowed: compared so that nothing wraps.
    pub(crate) fn allows(&self, n: u32) -> bool
        ensures { result ≡ allows_more n self.now }
    {
        if self.allowed < n {
            return false;
        }
        self.visits <= self.allowed - n
    }

    // n visits more, which are allowed.
    pub(crate) fn add(&mut self, n: u32)
        requires { allows_more n self.old ≡ true }
        ensures { self.new ≡ counted_more n self.old }
    {
        self.visits += n;
    }

    // n visits more; or where not all are allowed, as many as are, and out.
    pub(crate) fn visit_many(&mut self, n: u32) -> bool
        ensures { (result ≡ allows_more n self.old) × (self.new ≡ counted_by n self.old) }
    {
        if self.allows(n) {
            self.add(n);
            return true;
        }
        self.visits = self.allowed;
        self.out = true;
        false
    }

    // The rows are made for index i now; the answer is the index that they were made for.
    pub fn made_for(&mut self, i: usize) -> usize
        requires { i < 256 }
        ensures { (result ≡ self.old.index) × (self.new ≡ made_for i self.old) }
    {
        let was = self.index as usize;
        self.index = i as u32;
        was
    }

    // The path has all its bits.
    pub fn full(&self, i: usize) -> bool
        requires { 2 ^ self.now.m ≤ 256 }
        ensures { result ≡ eqb i (2 ^ self.now.m) }
    {
        i == 1usize << self.m
    }

    // There are more than n indices, so that a block of n has a row of n sums.
    pub(crate) fn has_row(&self, n: usize) -> bool
        requires { 2 ^ self.now.m ≤ 256 }
        ensures { result ≡ ltb n (2 ^ self.now.m) }
    {
        n < 1usize << self.m
    }

    // A block of 16 indices starts at i and is not all there are, so that it has a row of 16 sums.
    pub(crate) fn starts_block(&self, i: usize) -> bool
        ensures { result ≡ starts_block self.now i }
    {
        i % 16 == 0 && 4 < self.m
    }
}

// What is counted; how many full paths are held, the penalty of the best and that of the second.
#[derive(Clone, Copy)]
pub struct Progress {
    // first, so that one address is that of both: a step would keep two in its frame
    pub count: Count,
    pub held: u32,
    pub best: u32,
    pub second: u32,
}

impl Progress {
    // The penalty is not below the second's; while no second is held, that is above all penalties.
    pub(crate) fn dropped(&self, penalty: u32) -> bool
        ensures { result ≡ drops self.now penalty }
    {
        self.second <= penalty
    }

    // A full path is held: as best, when the old best becomes second, or as second.
    pub(crate) fn finish(
        &mut self,
        path: &[u8; 256],
        best: &mut [u8; 256],
        second: &mut [u8; 256],
        n: usize,
        penalty: u32,
    )
        requires { (n ≤ 256) × (n ≡ 2 ^ self.old.count.m) }
        ensures { Finished penalty self.old path.now best.old second.old
            self.new best.new second.new }
    {
        if self.held == 0 {
            crate::copy(path, best, n);
            self.held = 1;
            self.best = penalty;
            return;
        }
        self.held = 2;
        if penalty < self.best {
            crate::copy(best, second, n);
            crate::copy(path, best, n);
            self.second = self.best;
            self.best = penalty;
            return;
        }
        crate::copy(path, second, n);
        self.second = penalty;
    }
}
