//! A board deals the numbers below n, each to one pass and once.
ghost use Rattle.std.specs.Prelude.{◌≡◌, ◌<◌, ◌≤◌, ◌↔◌, [], ◌∷◌, ◌++◌, All, IsTrue, IsNone, IfOk, IfSome, IfNone, MatchOption, false};
ghost use Rattle.worker_split.specs.declared.board.TheConstants.{MAX_WORKERS};
ghost use Rattle.worker_split.specs.Dealing.{with_drawn};
ghost use Rattle.worker_split.specs.Passes.{ArePassesOf, AllFresh, AllSpent, AreDealtOnce};

use crate::rule::{Another, Dealt, Draw, Gather, Size, View};
use atomic_table::{Seat, Table};
use std::alloc::{AllocError, Global};
use std::marker::Model;

/// How many passes a board has at most.
pub const MAX_WORKERS: u32 = 64;

type Words = Table<(), View, Size, Dealt, Global>;

/// Deals the numbers below n, the tickets. It is seen as the identity of its table, n and the
/// number of its passes.
#[derive(Drop)]
pub struct Board {
    table: Words,
    n: u32,
    workers: u32,
}

impl Model for Board {
    ghost use Rattle.std.specs.Prelude.{◌≡◌, ◌≤◌};
    ghost use Rattle.worker_split.specs.declared.board.TheConstants.{MAX_WORKERS};
    ghost use Rattle.worker_split.specs.Passes.{Deal, deal_code};

    ghost Value = { Deal };

    ghost coded = { deal_code };

    ghost view = { λ b. record { table = b.table.shared.table_id; n = b.n; passes = b.workers } };

    ghost invariant = { λ b. record {
      words : b.table.shared.table_id.words ≡ 1;
      slots : b.table.shared.table_id.slots ≡ 0;
      key : b.table.shared.key ≡ record { n = b.n; workers = b.workers };
      some : 1 ≤ b.workers;
      few : b.workers ≤ MAX_WORKERS;
    } };
}

/// One worker's right to draw. It is seen as its board, its number, the tickets that it drew,
/// whether it is spent, and the counter that its last draw found.
#[derive(Drop)]
pub struct Pass {
    seat: Seat<(), View>,
    spent: bool,
}

impl Model for Pass {
    ghost use Rattle.std.specs.Prelude.{◌≡◌, []};
    ghost use Rattle.worker_split.specs.Passes.{Drawer, drawer_code};

    ghost Value = { Drawer };

    ghost coded = { drawer_code };

    ghost use Rattle.worker_split.specs.Rule.{number_of, role_at, drawer_of};

    ghost view = { λ p. drawer_of p.seat.table_id p.seat.me.0 p.spent };

    ghost invariant = { λ p. record {
      bare : p.seat.me.1 ≡ [];
      spent : p.seat.me.0.spent ≡ p.spent;
      role : p.seat.me.0.role ≡ role_at p.seat.me.0.workers (number_of p.seat.me.0.role);
    } };
}

impl Board {
    /// A board of n tickets, and its passes in the order of their numbers, as many as `workers`.
    pub fn make(alloc: Global, n: u32, workers: u32) -> Result<(Board, Vec<Pass>), AllocError>
        requires some { 1 ≤ workers }
        requires few { workers ≤ MAX_WORKERS }
        ensures board { IfOk result (λ r. (r.0.n ≡ n) × (r.0.passes ≡ workers)) }
        ensures passes { IfOk result (λ r. ArePassesOf r.0 r.1.items) }
        ensures fresh { IfOk result (λ r. AllFresh r.1.items) }
    {
        let mut passes = Vec::with_capacity(alloc, workers as usize)?;
        let (table, mut first) = Words::of_words(alloc, &[0], &Size { n, workers })?;
        for _i in 1..workers {
            let seat = table.shared.split_seat::<Another>(&mut first);
            passes.push(Pass { seat, spent: false })?;
        }
        let pass = Pass {
            seat: first,
            spent: false,
        };
        passes.insert(0, pass)?;
        Ok((Board { table, n, workers }, passes))
    }

    /// The next ticket, by one step on the word, which is never repeated. `None` where no ticket is
    /// left; the pass is spent from then on.
    #[inline]
    pub fn draw(&self, pass: &mut Pass) -> Option<u32>
        requires { pass.old.board ≡ self.now }
        ensures pass { (pass.new.board ≡ pass.old.board) × (pass.new.number ≡ pass.old.number) }

        // A spent pass takes no step, and else `read` is the counter that this step found.
        ensures stays { IsTrue pass.old.spent → IsNone result × (pass.new ≡ pass.old) }
        ensures read { pass.old.spent ≡ false → MatchOption result (self.now.n ≤ pass.new.read) (λ t. t ≡ pass.new.read) }
        ensures tickets { pass.old.spent ≡ false → pass.new.tickets ≡ with_drawn self.now.n pass.new.read pass.old.tickets }
        ensures spent { IsNone result ↔ IsTrue pass.new.spent }

        ensures below { IfSome result (λ t. t < self.now.n) }
        ensures rising { IfSome result (λ t. All (λ x. x < t) pass.old.tickets) }
        ensures drawn { IfSome result (λ t. pass.new.tickets ≡ pass.old.tickets ++ t ∷ []) }
        ensures none { IfNone result (pass.new.tickets ≡ pass.old.tickets) }
    {
        if pass.spent {
            return None;
        }
        let found = self.table.shared.fetch_add::<Draw>(&mut pass.seat, 0, 1);
        if found < u64::from(self.n) {
            Some(found as u32)
        } else {
            pass.spent = true;
            None
        }
    }

    /// Ends a board whose passes are all spent, and tells that they drew each ticket once.
    pub fn close(self, mut passes: Vec<Pass>)
        requires all { ArePassesOf self passes.items }
        requires spent { AllSpent passes.items }
        ensures { AreDealtOnce self.n passes.items }
    {
        let Board {
            table,
            n: _,
            workers: _,
        } = self;
        let Pass {
            seat: mut first,
            spent: _,
        } = passes.remove(0);
        while let Some(pass) = passes.pop() {
            let Pass { seat, spent: _ } = pass;
            table.shared.join_seat::<Gather>(&mut first, seat);
        }
        passes.destroy_empty();
        table.close_with(first).free();
    }

    // How many tickets each worker gets where all get as many.
    pub(crate) fn share(&self) -> usize {
        self.n as usize / self.workers as usize + 1
    }
}
