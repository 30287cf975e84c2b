//! The rule of a port, over one word, one slot and the views of all seats, with the kinds of step
//! that keep it. The program never constructs these views: only proofs use them.
//!
//! A kind of step states a fact to its caller, and can only mention the seat that makes the step.
//! Two kinds need more: a take states what the port was opened with, and a put which entries it
//! adds. So each of them has a type parameter whose trait, `OpeningWitness` or `EntryWitness`, has
//! one ghost member and no function. A call passes `Brand` for it, and the proof of the caller
//! chooses the member from the call's arguments: `Port::attempt` chooses the opening of its own
//! port, and the one entry of its command. A `Brand` without a chosen member states nothing, and
//! adds no entry.
use crate::home::{Home, Opening};
use atomic_table::{Join, Play, Split, TableRule};
use std::collections::LinkedList;
use std::marker::{Brand, PhantomData};
use vme_object::{Entry, Object};

/// The knowledge of one pass: the history that it has seen, and its own entries.
pub struct Account<C, R> {
    /// The number of the pass.
    pub who: usize,
    /// The history that the pass has seen.
    pub seen: LinkedList<Entry<C, R>>,
    /// The entries that the pass made.
    pub mine: LinkedList<Entry<C, R>>,
}

/// The knowledge of a seat: the accounts that it represents, and whether it holds the object.
pub struct SeatView<C, R> {
    /// The accounts of the passes that the seat represents.
    pub accounts: LinkedList<Account<C, R>>,
    /// Whether the seat holds the object.
    pub out: bool,
}

/// The rule of a port (`Kept` in `specs/Rule.antt`).
pub struct PortRule<O> {
    of: PhantomData<O>,
}

impl<O: Object> TableRule<Home<O>, SeatView<O::Cmd, O::Reply>, Opening<O>> for PortRule<O> {
    ghost use Rattle.vme_port.specs.Views.{opening_view};
    ghost use Rattle.vme_port.specs.Rule.{Kept};

    ghost holds = { λ k. Kept O.step k.start.value k.passes };

    ghost first = { λ k. opening_view k.passes };
}

/// What a take states about the opening of its port. The proof of each call chooses it.
pub trait OpeningWitness<O> {
    ghost use Rattle.std.specs.Prelude.{ℕ};

    ghost opened: { O → ℕ → Type 0 };
}

impl<O> OpeningWitness<O> for Brand {
    ghost opened = { λ start passes. Unit {0} };
}

/// The entries that a put adds. The proof of each call chooses them.
pub trait EntryWitness<C, R> {
    ghost use Rattle.std.specs.Prelude.{List};
    ghost use Rattle.vme_object.specs.declared.history.Entry.{Entry};

    ghost entries: { List (Entry C R) };
}

impl<C, R> EntryWitness<C, R> for Brand {
    ghost use Rattle.std.specs.Prelude.{[]};

    ghost entries = { [] };
}

/// The step that takes the object if it is in its slot.
pub struct TakeStep<O, W> {
    of: PhantomData<(O, W)>,
}

impl<O: Object, W: OpeningWitness<O>> Play<Home<O>, SeatView<O::Cmd, O::Reply>> for TakeStep<O, W> {
    ghost use Rattle.vme_port.specs.Steps.{take_effect};

    ghost then = { take_effect O.step W.opened };
}

/// The step that puts the object back, with the entries that the caller made.
pub struct PutStep<O, W> {
    of: PhantomData<(O, W)>,
}

impl<O: Object, W: EntryWitness<O::Cmd, O::Reply>> Play<Home<O>, SeatView<O::Cmd, O::Reply>>
    for PutStep<O, W> {
    ghost use Rattle.vme_port.specs.Steps.{put_effect};

    ghost then = { put_effect W.entries };
}

/// The step that marks the word as wanted.
pub struct MarkStep;

impl<T, C, R> Play<T, SeatView<C, R>> for MarkStep {
    ghost use Rattle.vme_port.specs.Steps.{mark_effect};

    ghost then = { mark_effect };
}

/// The step that splits the first account off.
pub struct SplitStep;

impl<C, R> Split<SeatView<C, R>> for SplitStep {
    ghost use Rattle.vme_port.specs.Steps.{all_but_first, first_alone};

    ghost left = { all_but_first };

    ghost right = { first_alone };
}

/// The step that adds the accounts of another seat.
pub struct JoinStep;

impl<C, R> Join<SeatView<C, R>> for JoinStep {
    ghost use Rattle.vme_port.specs.Steps.{joint_view, empty_view};

    ghost both = { joint_view };

    ghost spent = { empty_view };
}
