// The search for a least naming: each role in turn takes a board, along a shortest path.
ghost use Rattle.std.specs.Prelude.{◌≡◌, ℕ, ◌+◌, ◌*◌, ◌^◌, ◌<◌, ◌≤◌, length};
ghost use Rattle.assignment_costs.specs.Costs.{cost_at};
ghost use Rattle.assignment_search.specs.Search.{val, IsBelow, Offered, Relaxed, IsPartial, Nearest, Planted};
ghost use Rattle.assignment_search.specs.Trees.{Matched, Fair, Held, Found, Joined};

use crate::paths::Path;
use crate::tree::{Matching, Prices, Tree};
use assignment_costs::Costs;

// The search when the roles below `placed` have boards: the prices are feasible, and tight at these boards.
#[derive(Drop)]
pub(crate) struct Search<'a> {
    pub(crate) costs: &'a Costs,
    pub(crate) prices: Prices,
    pub(crate) matching: Matching,
    pub(crate) placed: usize,
    ghost owners_below: { IsBelow matching.owner },
    ghost names_below: { IsBelow matching.naming },
    ghost matched: { Matched costs.now.boards placed matching 16 },
    ghost fair: { Fair costs.now prices matching },
    ghost held: { Held costs.now prices matching 16 },
}

impl<'a> Search<'a> {
    // Finds the next role a board; roles before it may have to change theirs.
    pub(crate) fn place(&mut self)
        requires { self.old.placed < self.old.costs.now.boards }
        ensures costs { self.new.costs.now ≡ self.old.costs.now }
        ensures placed { self.new.placed ≡ self.old.placed + 1 }
    {
        let path = self.grow();
        path.settle(self.costs, &mut self.prices, &self.matching, self.placed);
        path.switch(self.costs, &mut self.matching, self.placed);
        self.placed += 1;
    }

    // A shortest path from the next role to a board that nobody holds.
    fn grow(&self) -> Path
        requires { self.now.placed < self.now.costs.now.boards }
        ensures { Found self.now.costs.now self.now.prices self.now.matching self.now.placed result.tree result.end }
    {
        let mut tree = self.plant();
        let mut end = nearest(self.costs.boards, &tree);
        let mut step = 0;
        while let Some(role) = self.matching.owner[end] {
            join(&mut tree, end, step);
            self.relax(role, tree.distance[end], &mut tree);
            end = nearest(self.costs.boards, &tree);
            step += 1;
        }
        join(&mut tree, end, step);
        Path { tree, end }
    }

    // The tree of the next role alone: each board is as far as the role's own pair with it.
    fn plant(&self) -> Tree
        requires { self.now.placed < self.now.costs.now.boards }
        ensures { Planted self.now.costs.now self.now.prices self.now.placed result }
    {
        let price = self.prices.roles[self.placed];
        let mut distance = [0; 16];
        for y in 0..self.costs.boards {
            distance[y] = self.costs.table[self.placed * 16 + y] + self.prices.discounts[y] - price;
        }
        Tree {
            distance,
            way: [self.placed; 16],
            joined: [None; 16],
        }
    }

    // Lets every board outside the tree be reached from `role`, which is `base` away.
    fn relax(&self, role: usize, base: u64, tree: &mut Tree)
        requires role { role < self.now.costs.now.boards }
        requires base { base ≤ 2 ^ 45 }
        ensures { Relaxed self.now.costs.now self.now.prices role base tree.old tree.new }
    {
        let price = self.prices.roles[role];
        for y in 0..self.costs.boards {
            if tree.joined[y].is_none() {
                offer(
                    tree,
                    y,
                    role,
                    base + self.costs.table[role * 16 + y] + self.prices.discounts[y] - price,
                );
            }
        }
    }
}

// Lets `board` be reached from `role` if that is shorter.
fn offer(tree: &mut Tree, board: usize, role: usize, reach: u64)
    requires { board < 16 }
    ensures { Offered tree.old board role reach tree.new }
{
    if reach < tree.distance[board] {
        tree.distance[board] = reach;
        tree.way[board] = role;
    }
}

// A nearest board outside the tree.
fn nearest(boards: usize, tree: &Tree) -> usize
    requires most { boards ≤ 16 }
    requires low { (y : ℕ) → y < boards → val tree.now.distance y ≤ 2 ^ 45 }
    requires outside { IsPartial boards tree.now }
    ensures { Nearest boards tree.now result }
{
    let mut next = 0;
    let mut least = u64::MAX;
    for y in 0..boards {
        if tree.joined[y].is_none() && tree.distance[y] < least {
            least = tree.distance[y];
            next = y;
        }
    }
    next
}

// Takes `board` into the tree.
fn join(tree: &mut Tree, board: usize, step: usize)
    requires { board < 16 }
    ensures { Joined tree.old board (step + 1) tree.new }
{
    tree.joined[board] = Some(step);
}
