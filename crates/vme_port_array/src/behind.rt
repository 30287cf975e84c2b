//! Two passes of one array, compared: calls that are made after a comparison come behind all that the
//! other pass had seen before it. Contracts have no clock, so a comparison is what orders two passes.
ghost use Rattle.std.specs.Prelude.{◌≡◌, ◌<◌, ◌++◌, List, ℕ, length, take, Contains};
ghost use Rattle.vme_object.specs.declared.history.Entry.{Entry};
ghost use Rattle.vme_object.specs.History.{IsPrefix};
ghost use Rattle.vme_object.specs.Each.{Each};
ghost use Rattle.vme_port.specs.declared.home.Home.{Home};
ghost use Rattle.vme_port.specs.Passes.{PassView};
ghost use Rattle.vme_port.specs.Calls.{Makes};
ghost use Rattle.vme_port_array.specs.declared.indexed.Indexed.{Indexed};
ghost use Rattle.vme_port_array.specs.Settlements.{Settles, HasPlaceIn};
ghost use Rattle.vme_port_array.specs.Arrays.{IsPassOf};
ghost use Rattle.vme_port_array.specs.Comparisons.{ShareHistory};

use crate::indexed::Indexed;
use crate::pass::Pass;
use crate::port_array::PortArray;
use crate::rule::{ArrayView, JoinStep, SplitStep};
use atomic_table::Play;
use vme_object::Object;

/// The step that compares the accounts of a seat with the history.
pub struct LookStep;

impl<T, C, R> Play<T, ArrayView<C, R>> for LookStep {
    ghost use Rattle.vme_port_array.specs.Comparisons.{look_effect};

    ghost then = { look_effect };
}

impl<O: Object> PortArray<O> {
    /// Compares two passes, and changes neither: both have seen prefixes of one history, which has
    /// exactly their own entries. Calls made after it come behind all that the other pass has seen
    /// by now (`calls_come_behind`).
    pub fn compare(&self, first: &mut Pass<O>, second: &mut Pass<O>)
        requires first { IsPassOf self.now first.old }
        requires second { IsPassOf self.now second.old }
        ensures same_first { first.new ≡ first.old }
        ensures same_second { second.new ≡ second.old }
        ensures shared { ShareHistory first.old second.old }
    {
        let account = self.table.shared.split_seat::<SplitStep>(&mut first.seat);
        self.table
            .shared
            .join_seat::<JoinStep>(&mut second.seat, account);
        self.table.shared.load::<LookStep>(&mut second.seat, 0);
        let account = self.table.shared.split_seat::<SplitStep>(&mut second.seat);
        self.table
            .shared
            .join_seat::<JoinStep>(&mut first.seat, account);
    }
}

/// Real time, without a clock. Two passes are compared after the calls of the first have returned
/// and before the second makes its next calls.
///
/// Each entry that the second pass makes after the comparison has its place in the settled history
/// behind everything that the first had seen, and so behind all entries that the first had made
/// (`placed`). When both are compared again, what the first had seen is a prefix of what the second
/// has seen by its calls (`seen`).
pub fn calls_come_behind<O: Object>()
    ensures placed { (starts : List O) (homes : List (Home O)) (k : ℕ)
        (passes : List (PassView (Indexed O.Cmd) O.Reply))
        (outcome : Settles O.step starts k passes homes)
        (ds es : List (Entry (Indexed O.Cmd) O.Reply))
        (first first_after second second_after : PassView (Indexed O.Cmd) O.Reply) →
        ShareHistory first second →
        Contains passes first_after → Makes ds first first_after →
        Contains passes second_after → Makes es second second_after →
        Each (λ i e. HasPlaceIn O.step starts outcome.history first.seen (second.mine ++ take i es) e) es }
    ensures seen { (es : List (Entry (Indexed O.Cmd) O.Reply))
        (first second second_after : PassView (Indexed O.Cmd) O.Reply) →
        ShareHistory first second → Makes es second second_after →
        ShareHistory first second_after → 0 < length es →
        IsPrefix first.seen second_after.seen }
{}
