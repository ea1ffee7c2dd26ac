// The numbers of a case's line, after the function's own.
ghost use Rattle.std.specs.Prelude.{◌≡◌, [], ◌∷◌};
ghost use Rattle.vectors.specs.Answers.{answered, extended, bit};

// At most twelve numbers, and zeros after them: an array with a count, as nothing here has a heap.
#[derive(Clone, Copy)]
pub struct Answer {
    pub count: usize,
    pub numbers: [u64; 12],
}

impl Answer {
    // The answer of a case that is not run.
    pub fn none() -> Self
        ensures { result ≡ answered [] }
    {
        Self {
            count: 0,
            numbers: [0; 12],
        }
    }

    // One number more; an answer of twelve is left.
    pub fn push(self, n: u64) -> Self
        ensures { result ≡ extended self (n ∷ []) }
    {
        let at = self.count;
        if 12 <= at {
            return self;
        }
        let mut numbers = self.numbers;
        numbers[at] = n;
        let count = at + 1;
        Self { count, numbers }
    }

    // Some numbers more, one after the other.
    pub fn extend(self, numbers: &[u64]) -> Self
        ensures { result ≡ extended self numbers.now }
    {
        let mut answer = self;
        for n in numbers {
            answer = answer.push(*n);
        }
        answer
    }

    pub fn of(numbers: &[u64]) -> Self
        ensures { result ≡ answered numbers.now }
    {
        Self::none().extend(numbers)
    }

    // 1 for what holds, 0 for what does not.
    pub fn truth(b: bool) -> Self
        ensures { result ≡ answered (bit b ∷ []) }
    {
        Self::of(&[bit(b)])
    }
}

pub fn bit(b: bool) -> u64
    ensures { result ≡ bit b }
{
    if b { 1 } else { 0 }
}
