// Which blocks are active in a reaction.
ghost use Rattle.std.specs.Prelude.{◌≡◌, ◌≤◌, ℕ, length, All, Contains};
ghost use Rattle.sci_store.specs.Marks.{idle, mark_at};

/// What is known of a block in a reaction.
#[derive(Clone, Copy, Drop)]
pub struct Mark {
    /// Whether it has its values, since it is active.
    pub active: bool,
    /// The branch that it takes, if it is active and synchronous; else 0.
    pub branch: u32,
    /// The activation inputs that are activated, if it is active: bit `p - 1` for input `p`.
    pub mask: u64,
}

/// The mark of a block that isn't active.
pub const IDLE: Mark = Mark {
    active: false,
    branch: 0,
    mask: 0,
};

/// Takes back the marks of some blocks.
pub fn clear(marks: &mut [Mark], blocks: &[u32])
    requires { All (λ b. (1 ≤ b) × (b ≤ length marks.old)) blocks.now }
    ensures cleared { (b : ℕ) → Contains blocks.now b → mark_at marks.new b ≡ idle }
    ensures others { (b : ℕ) → (Contains blocks.now b → ⊥) → mark_at marks.new b ≡ mark_at marks.old b }
{
    for block in blocks {
        marks[*block as usize - 1] = IDLE;
    }
}
