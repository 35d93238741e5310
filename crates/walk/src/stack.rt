//! A stack of cubes in an area, and numbers beside them.
ghost use Rattle.std.specs.Prelude.{◌≡◌, ◌+◌, ◌-◌, ◌*◌, ◌<◌, ◌≤◌, ◌++◌, map, length, IfSome, None, slice_index};
ghost use Rattle.cubes.specs.Areas.{cube_at};
ghost use Rattle.cubes.specs.Cubes.{pieces};
ghost use Rattle.walk.specs.Stack.{piece, piece_at, stack_of, numbered};
ghost use Rattle.walk.specs.Tasks.{tasks, Kept};

use cubes::area::cube_at;
use parts::{Part, lies_within};

/// Pieces of a cube, each with the number of the next row that it is to be cut by: the first `depth` cubes of `work`, each of `p` parts, with
/// the numbers beside them. The last is on top.
#[derive(Drop)]
pub(crate) struct Stack<'a, P> {
    pub(crate) work: &'a mut [P],
    pub(crate) numbers: &'a mut [usize],
    pub(crate) p: usize,
    pub(crate) depth: usize,
}

/// Makes the cube `a` its piece of part `k` outside `b`.
pub(crate) fn make_piece<P: Part>(a: &mut [P], b: &[P], k: usize)
    requires b_len { length b.now ≡ length a.old }
    requires k_in_bounds { k < length a.old }
    ensures { map P.set a.new ≡ piece k (map P.set a.old) (map P.set b.now) }
{
    for (j, part) in b[..k].iter().enumerate() {
        a[j] = a[j].common(*part);
    }
    a[k] = a[k].outside(b[k]);
}

impl<'a, P: Part> Stack<'a, P> {
    /// The piece on top, with its number.
    pub(crate) fn top(&self) -> Option<(&[P], usize)>
        requires fits { self.now.depth * self.now.p ≤ length self.now.work.now }
        requires beside { self.now.depth ≤ length self.now.numbers.now }
        ensures none { result ≡ None → self.now.depth ≡ 0 }
        ensures piece { IfSome result (λ t. (0 < self.now.depth) × (t.0.now ≡ cube_at self.now.p (self.now.depth - 1) self.now.work.now) × (t.1 ≡ slice_index self.now.numbers.now (self.now.depth - 1))) }
    {
        if self.depth == 0 {
            return None;
        }
        let at = self.depth - 1;
        Some((cube_at(self.work, at, self.p), self.numbers[at]))
    }

    /// Takes off the piece on top.
    pub(crate) fn pop(&mut self)
        requires { 0 < self.old.depth }
        ensures kept { Kept self.old self.new }
        ensures depth { self.new.depth ≡ self.old.depth - 1 }
        ensures work { self.new.work.now ≡ self.old.work.now }
        ensures numbers { self.new.numbers.now ≡ self.old.numbers.now }
    {
        self.depth -= 1;
    }

    // Puts the piece of part `k` of the cube behind the stack on top, unless it is empty, and moves the cube up where there is a piece to come.
    fn push_piece(&mut self, row: &[P], k: usize, next: usize)
        requires fits { self.old.depth * self.old.p + self.old.p ≤ length self.old.work.now }
        requires spare { 0 < k → self.old.depth * self.old.p + (self.old.p + self.old.p) ≤ length self.old.work.now }
        requires room { self.old.depth < length self.old.numbers.now }
        requires size { length row.now ≡ self.old.p }
        requires part { k < self.old.p }
        ensures kept { Kept self.old self.new }
        ensures stack { tasks P.set self.new ≡ numbered next (piece_at k (cube_at self.old.p self.old.depth (map P.set self.old.work.now)) (map P.set row.now)) ++ tasks P.set self.old }
        ensures cube { 0 < k → cube_at self.old.p self.new.depth (map P.set self.new.work.now) ≡ cube_at self.old.p self.old.depth (map P.set self.old.work.now) }
        ensures most { self.new.depth ≤ self.old.depth + 1 }
    {
        let at = self.depth * self.p;
        if lies_within(self.work[at + k], row[k]) {
            return;
        }
        let end = at + self.p;
        if k > 0 {
            self.work.copy_within(at..end, end);
        }
        make_piece(&mut self.work[at..end], row, k);
        self.numbers[self.depth] = next;
        self.depth += 1;
    }

    /// Puts the pieces of the cube on top outside `row` in its place, the first on top.
    pub(crate) fn cut(&mut self, row: &[P], next: usize)
        requires some { 0 < self.old.depth }
        requires fits { (self.old.depth - 1) * self.old.p + self.old.p * self.old.p ≤ length self.old.work.now }
        requires room { self.old.depth - 1 + self.old.p ≤ length self.old.numbers.now }
        requires size { length row.now ≡ self.old.p }
        ensures kept { Kept self.old self.new }
        ensures stack { tasks P.set self.new ≡ numbered next (pieces (cube_at self.old.p (self.old.depth - 1) (map P.set self.old.work.now)) (map P.set row.now)) ++ stack_of self.old.p (self.old.depth - 1) (map P.set self.old.work.now) self.old.numbers.now }
    {
        self.pop();
        // By number: a piece is named by the part that it differs in.
        for k in (0..self.p).rev() {
            self.push_piece(row, k, next);
        }
    }
}
