//! The rule of an array, over a word and a slot for each object and the views of all seats, with
//! the kinds of step that keep it. The program never constructs these views: only proofs use them.
//!
//! A take and a put state what the array was opened with, and a put also states the entries that it
//! adds. For each of these facts a kind of step has a type parameter, whose trait has one ghost
//! member that the proof of the caller chooses.
use crate::indexed::Indexed;
use crate::opening::Opening;
use atomic_table::{Join, Play, Split, TableRule};
use std::collections::LinkedList;
use std::marker::{Brand, PhantomData};
use vme_object::Object;
use vme_port::{Account, Home};

/// The knowledge of a seat: the accounts that it stands for, and which object it holds, if any.
pub struct ArrayView<C, R> {
    /// The accounts of the passes that the seat stands for.
    pub accounts: LinkedList<Account<C, R>>,
    /// The index of the object that the seat holds, if it holds one.
    pub out: Option<usize>,
}

/// The rule of an array (`Kept` in `specs/Rule.antt`).
pub struct ArrayRule<O> {
    of: PhantomData<O>,
}

impl<O: Object> TableRule<Home<O>, ArrayView<Indexed<O::Cmd>, O::Reply>, Opening<O>>
    for ArrayRule<O> {
    ghost use Rattle.vme_port_array.specs.Views.{opening_view};
    ghost use Rattle.vme_port_array.specs.Rule.{Kept};

    ghost holds = { λ k. Kept O.step k.starts.value.items k.passes };

    ghost first = { λ k. opening_view k.passes };
}

/// What a take or a put states about the opening of its array. The proof of each call chooses it.
pub trait OpeningWitness<O> {
    ghost use Rattle.std.specs.Prelude.{ℕ, List};

    ghost opened: { List O → ℕ → Type 0 };
}

impl<O> OpeningWitness<O> for Brand {
    ghost opened = { λ starts passes. Unit {0} };
}

/// The entries that a put adds. The proof of each call chooses them.
pub trait EntryWitness<C, R> {
    ghost use Rattle.std.specs.Prelude.{List};
    ghost use Rattle.vme_object.specs.declared.history.Entry.{Entry};
    ghost use Rattle.vme_port_array.specs.declared.indexed.Indexed.{Indexed};

    ghost entries: { List (Entry (Indexed C) R) };
}

impl<C, R> EntryWitness<C, R> for Brand {
    ghost use Rattle.std.specs.Prelude.{[]};

    ghost entries = { [] };
}

/// The step that takes an object if it is in its slot.
pub struct TakeStep<O, W> {
    of: PhantomData<(O, W)>,
}

impl<O: Object, W: OpeningWitness<O>> Play<Home<O>, ArrayView<Indexed<O::Cmd>, O::Reply>>
    for TakeStep<O, W> {
    ghost use Rattle.vme_port_array.specs.Steps.{take_effect};

    ghost then = { take_effect O.step W.opened };
}

/// The step that puts an object back, with the entries that the caller made.
pub struct PutStep<O, W, E> {
    of: PhantomData<(O, W, E)>,
}

impl<O: Object, W: OpeningWitness<O>, E: EntryWitness<O::Cmd, O::Reply>> Play<
    Home<O>,
    ArrayView<Indexed<O::Cmd>, O::Reply>,
> for PutStep<O, W, E> {
    ghost use Rattle.vme_port_array.specs.Steps.{put_effect};

    ghost then = { put_effect O.step W.opened E.entries };
}

/// The step that marks the word of an object as wanted.
pub struct MarkStep;

impl<T, C, R> Play<T, ArrayView<C, R>> for MarkStep {
    ghost use Rattle.vme_port_array.specs.Steps.{mark_effect};

    ghost then = { mark_effect };
}

/// The step that splits the first account off.
pub struct SplitStep;

impl<C, R> Split<ArrayView<C, R>> for SplitStep {
    ghost use Rattle.vme_port_array.specs.Steps.{all_but_first, first_alone};

    ghost left = { all_but_first };

    ghost right = { first_alone };
}

/// The step that adds the accounts of another seat.
pub struct JoinStep;

impl<C, R> Join<ArrayView<C, R>> for JoinStep {
    ghost use Rattle.vme_port_array.specs.Steps.{joint_view, empty_view};

    ghost both = { joint_view };

    ghost spent = { empty_view };
}
