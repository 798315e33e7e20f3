// The entry number of each node's normal form and of its negation's, so that each is walked once.
ghost use Rattle.std.specs.Prelude.{◌≡◌, ℕ, ◌<◌, ◌⊎◌, Bool, IfOk};
ghost use Rattle.ltl_closure.specs.Plan.{memo_at, HasRoom, IsWithin};

use std::alloc::{AllocError, Global};

#[derive(Drop)]
pub struct Memo {
    positive: Vec<u32>,
    negative: Vec<u32>,
}

impl Memo {
    /// No number is known: each is 0.
    pub fn new(alloc: Global, nodes: usize) -> Result<Memo, AllocError>
        ensures room { IfOk result (λ memo. HasRoom memo nodes) }
        ensures zero { IfOk result (λ memo. (n : ℕ) (s : Bool) → memo_at memo n s ≡ 0) }
    {
        Ok(Memo {
            positive: vec![in alloc; 0; nodes]?,
            negative: vec![in alloc; 0; nodes]?,
        })
    }

    pub fn get(&self, node: u32, positive: bool) -> u32
        requires { IsWithin self.now node }
        ensures { result ≡ memo_at self.now node positive }
    {
        if positive {
            self.positive[node as usize]
        } else {
            self.negative[node as usize]
        }
    }

    pub fn set(&mut self, node: u32, positive: bool, number: u32)
        requires { IsWithin self.old node }
        ensures room { (nodes : ℕ) → HasRoom self.old nodes → HasRoom self.new nodes }
        ensures kept { memo_at self.new node positive ≡ number }
        ensures numbers { (n : ℕ) (s : Bool) → (memo_at self.new n s ≡ memo_at self.old n s)
            ⊎ ((n ≡ node) × (s ≡ positive) × (memo_at self.new n s ≡ number)) }
    {
        if positive {
            self.positive[node as usize] = number;
        } else {
            self.negative[node as usize] = number;
        }
    }
}
