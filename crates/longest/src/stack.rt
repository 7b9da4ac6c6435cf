//! The longest run, over a record's nodes from the last to the first. The trees that begin at the nodes taken so far
//! stand in a row; a stack has the run of each, the first on top. A run is its total, its first and its last job, and
//! the jobs between by a list of next jobs.
ghost use Rattle.std.specs.Prelude.{ℕ, ◌^◌, ◌≡◌, List, [], ◌∷◌, length};
ghost use Rattle.poset.specs.Tree.{series, parallel, Tree};
ghost use Rattle.record.specs.Bits.{AllBelow};
ghost use Rattle.record.specs.Layout.{hours_bits, hours_of};
ghost use Rattle.reader.specs.Nodes.{Listed, Step, Fits};
ghost use Rattle.longest.specs.Longest.{WorkRun};
ghost use Rattle.longest.specs.Stack.{Beside, Joins, Stacked, Stacks, run_at};

// The hours together, and the ends of the run.
#[derive(Clone, Copy)]
pub struct Run {
    pub total: u32,
    pub first: u8,
    pub last: u8,
}

// The runs of the trees in a row from the entry `top` on, and for each job the one after it in its run. Lists of a
// fixed length, since nothing is on the heap.
#[derive(Clone, Copy)]
pub struct Stack {
    top: usize,
    runs: [Run; 128],
    pub next: [u8; 128],
}

impl Stack {
    // The runs down to the entry `end` made into one, one after the other.
    fn chain(&mut self, end: usize)
        requires { (rs : List WorkRun) × Beside rs end self.old }
        ensures { Joins series end self.old self.new }
    {
        let mut whole = self.runs[end];
        // by entry: a loop over `self.runs` that writes `self.next` is not covered by the prover; and by field, since
        // a whole run is read slower just after it is written
        for k in (self.top..end).rev() {
            self.next[usize::from(self.runs[k].last)] = whole.first;
            whole.first = self.runs[k].first;
            whole.total += self.runs[k].total;
        }
        self.runs[end] = whole;
        self.top = end;
    }

    // Of the runs down to the entry `end` the first with the greatest total. No next job changes.
    fn side(&mut self, end: usize)
        requires { (rs : List WorkRun) × Beside rs end self.old }
        ensures joins { Joins parallel end self.old self.new }
        ensures next { self.new.next ≡ self.old.next }
    {
        let mut best = self.runs[end];
        for run in self.runs[self.top..end].iter().rev() {
            if best.total <= run.total {
                best = *run;
            }
        }
        self.runs[end] = best;
        self.top = end;
    }

    // One node more, by its token, a number as `Step` has it: the run of a leaf goes on top, that of a group takes
    // the place of its children's.
    // Taken apart by number: with a match on `record::Token` a call takes up to 1.15 times the time.
    fn take(&mut self, token: usize, hours: &[u16; 128])
        requires { AllBelow (2 ^ hours_bits) hours.now × ((ts us : List Tree) × Step token ts us × Fits us
            × Stacked (hours_of hours.now) ts self.old) }
        ensures { Stacks token (hours_of hours.now) self.old self.new }
    {
        if token < 256 {
            self.top -= 1;
            self.runs[self.top] = Run {
                total: u32::from(hours[token]),
                first: token as u8,
                last: token as u8,
            };
            return;
        }
        let end = self.top + token % 128;
        if token < 384 {
            self.chain(end);
        } else {
            self.side(end);
        }
    }

    // The run of the tree whose nodes these are.
    pub fn of(nodes: &[u16], hours: &[u16; 128]) -> Stack
        requires { AllBelow (2 ^ hours_bits) hours.now × ((t : Tree) × Listed t nodes.now (length nodes.now)) }
        ensures { (t : Tree) → Listed t nodes.now (length nodes.now) → Stacked (hours_of hours.now) (t ∷ []) result }
    {
        let mut stack = Stack {
            top: 128,
            runs: [Run {
                total: 0,
                first: 0,
                last: 0,
            }; 128],
            next: [0; 128],
        };
        for token in nodes.iter().rev() {
            stack.take(usize::from(*token), hours);
        }
        stack
    }

    // The run on top.
    pub fn run(&self) -> Run
        requires { (hours : ℕ → ℕ) × (t : Tree) × Stacked hours (t ∷ []) self.now }
        ensures { result ≡ run_at self.now self.now.top }
    {
        self.runs[self.top]
    }
}
