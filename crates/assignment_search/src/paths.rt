// Putting a shortest path to use: the prices rise, and its roles take their new boards.
ghost use Rattle.std.specs.Prelude.{◌≡◌, ℕ, ◌+◌, ◌*◌, ◌^◌, ◌<◌, ◌≤◌};
ghost use Rattle.assignment_search.specs.Paths.{gap_of, rise_of, Settled, Route, Switched, Given};
ghost use Rattle.assignment_search.specs.Search.{val, rank_of, IsBelow};
ghost use Rattle.assignment_search.specs.Trees.{Matched};

use crate::tree::{Matching, Prices, Tree};
use assignment_costs::Costs;

// The tree of a shortest path, and the board at the path's end. No board of the tree is farther.
#[derive(Clone, Copy)]
pub(crate) struct Path {
    pub(crate) tree: Tree,
    pub(crate) end: usize,
    ghost end_most: { end < 16 },
    ghost far_most: { val tree.distance end ≤ 2 ^ 45 },
    ghost near: { (y : ℕ) → 0 < rank_of tree y → val tree.distance y ≤ val tree.distance end },
}

impl Path {
    // How long the path is.
    fn far(&self) -> u64
        ensures { result ≡ val self.now.tree.distance self.now.end }
    {
        self.tree.distance[self.end]
    }

    // How much nearer than the end a board of the tree is.
    fn gap(&self, board: usize) -> u64
        requires { board < 16 }
        ensures { result ≡ gap_of self.now.tree (val self.now.tree.distance self.now.end) board }
    {
        if self.tree.joined[board].is_none() {
            0
        } else {
            self.far() - self.tree.distance[board]
        }
    }

    // Raises the prices of the tree's roles and the discounts of its boards by their gaps, and the root's by
    // all of the path.
    pub(crate) fn settle(
        &self,
        costs: &Costs,
        prices: &mut Prices,
        matching: &Matching,
        root: usize,
    )
        requires root { root < costs.now.boards }
        requires below { IsBelow matching.now.naming }
        requires roles { (x : ℕ) → x < costs.now.boards → val prices.old.roles x ≤ 2 ^ 44 }
        requires discounts { (y : ℕ) → y < costs.now.boards → val prices.old.discounts y ≤ 2 ^ 44 }
        ensures { Settled costs.now.boards matching.now root self.now.tree (val self.now.tree.distance self.now.end) prices.old prices.new }
    {
        self.raise_roles(costs, prices, matching);
        self.raise_boards(costs, prices);
        prices.roles[root] += self.far();
    }

    fn raise_roles(&self, costs: &Costs, prices: &mut Prices, matching: &Matching)
        requires below { IsBelow matching.now.naming }
        requires roles { (x : ℕ) → x < costs.now.boards → val prices.old.roles x ≤ 2 ^ 44 }
        ensures raised { (x : ℕ) → x < costs.now.boards → val prices.new.roles x ≡ val prices.old.roles x + rise_of matching.now self.now.tree (val self.now.tree.distance self.now.end) x }
        ensures same { prices.new.discounts ≡ prices.old.discounts }
    {
        for x in 0..costs.boards {
            if let Some(board) = matching.naming[x] {
                prices.roles[x] += self.gap(board);
            }
        }
    }

    fn raise_boards(&self, costs: &Costs, prices: &mut Prices)
        requires discounts { (y : ℕ) → y < costs.now.boards → val prices.old.discounts y ≤ 2 ^ 44 }
        ensures raised { (y : ℕ) → y < costs.now.boards → val prices.new.discounts y ≡ val prices.old.discounts y + gap_of self.now.tree (val self.now.tree.distance self.now.end) y }
        ensures same { prices.new.roles ≡ prices.old.roles }
    {
        for y in 0..costs.boards {
            prices.discounts[y] += self.gap(y);
        }
    }

    // Gives each board of the path from its end to `root` to the role from which it was reached.
    pub(crate) fn switch(&self, costs: &Costs, matching: &mut Matching, root: usize)
        requires root { root < costs.now.boards }
        requires owners { IsBelow matching.old.owner }
        requires names { IsBelow matching.old.naming }
        requires matched { Matched costs.now.boards root matching.old 16 }
        requires route { Route costs.now.boards matching.old root self.now.tree self.now.end }
        ensures switched { Switched costs.now.boards matching.old root self.now.tree matching.new }
        ensures owners { IsBelow matching.new.owner }
        ensures names { IsBelow matching.new.naming }
    {
        let mut board = self.end;
        let mut role = self.tree.way[board];
        while role != root {
            let next = matching.naming[role].unwrap();
            give(matching, role, board);
            board = next;
            role = self.tree.way[board];
        }
        give(matching, role, board);
    }
}

// Gives `board` to `role`.
fn give(matching: &mut Matching, role: usize, board: usize)
    requires role { role < 16 }
    requires board { board < 16 }
    requires owners { IsBelow matching.old.owner }
    requires names { IsBelow matching.old.naming }
    ensures given { Given matching.old role board matching.new }
    ensures owners { IsBelow matching.new.owner }
    ensures names { IsBelow matching.new.naming }
{
    matching.owner[board] = Some(role);
    matching.naming[role] = Some(board);
}
