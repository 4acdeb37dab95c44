//! Work on one row.
ghost use Rattle.std.specs.Prelude.{ℕ};

/// Work on one row of a list, told by its index. `takes` says on which rows it may begin, and `makes` what it leaves of them.
pub trait RowJob<T> {
    ghost takes: { Self → ℕ → T → Type 0 };

    ghost makes: { Self → ℕ → T → T → Type 0 };

    /// Works on the row with this index. It takes no memory.
    fn run(&self, index: usize, row: &mut T)
        requires { takes self.now index row.old }
        ensures { makes self.now index row.old row.new };
}
