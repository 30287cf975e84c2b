//! The keys and values of a table, and their faults: unknown and absent keys, and values of another
//! kind or out of range.
ghost use Rattle.std.specs.Prelude.{◌≡◌, ◌∷◌, ◌++◌, [], map, IfOk};
ghost use Rattle.vme_positions.specs.declared.place.Place.TheVariants as places;
ghost use Rattle.vme_faults.specs.Causes.{refusal_of};
ghost use Rattle.vme_faults.specs.Sites.{sited};

use crate::cause::{Cause, DocumentCause, ValueKind};
use crate::finding::{Finding, find};
use std::alloc::AllocError;
use toml::{Table, Value};
use vme_positions::{Key, Place, TableName};

/// A table of a file.
#[derive(Clone, Copy)]
pub(crate) struct Section<'a> {
    /// The values of its keys.
    pub values: &'a Table,
    /// Which table it is.
    pub table: TableName,
    /// Its index among the tables of this name, from 0.
    pub index: usize,
}

impl<'a> Section<'a> {
    /// The place of the table's header.
    pub(crate) fn header(&self) -> Place {
        Place::Table {
            table: self.table,
            index: self.index,
        }
    }

    /// The place of the value of `key`.
    pub(crate) fn value_place(&self, key: Key) -> Place
        ensures { result ≡ places.Value self.now.table self.now.index key }
    {
        Place::Value {
            table: self.table,
            index: self.index,
            key,
        }
    }

    /// Finds a fault of the value of `key`.
    pub(crate) fn find_at(
        &self,
        key: Key,
        cause: Cause,
        found: &mut Vec<Finding>,
    ) -> Result<(), AllocError>
        ensures { IfOk result (λ _. map sited found.new.items ≡ map sited found.old.items
            ++ (places.Value self.now.table self.now.index key, refusal_of cause) ∷ []) }
    {
        find(found, cause, self.value_place(key))
    }

    /// The value of `key`.
    pub(crate) fn value(&self, key: Key) -> Option<&'a Value> {
        self.values.get(key.name())
    }

    /// Finds the unknown keys.
    pub(crate) fn find_unknown(&self, found: &mut Vec<Finding>) -> Result<(), AllocError> {
        let mut nth: usize = 0;
        for name in self.values.keys() {
            if Key::named(self.table, name.as_str()).is_none() {
                let place = Place::Unknown {
                    table: self.table,
                    index: self.index,
                    nth,
                };
                find(found, Cause::Document(DocumentCause::UnknownKey), place)?;
                nth = nth.saturating_add(1);
            }
        }
        Ok(())
    }

    /// Whether an unknown key has tables.
    pub(crate) fn has_unknown_tables(&self) -> bool {
        for (name, value) in self.values {
            if let Value::Array(items) = value
                && let Some(Value::Table(_)) = items.first()
                && Key::named(self.table, name.as_str()).is_none()
            {
                return true;
            }
        }
        false
    }

    /// The value of a required key. If the key is absent, that is found.
    fn required(
        &self,
        key: Key,
        found: &mut Vec<Finding>,
    ) -> Result<Option<&'a Value>, AllocError> {
        let value = self.value(key);
        if value.is_none() {
            let cause = Cause::Document(DocumentCause::MissingKey { key });
            find(found, cause, self.header())?;
        }
        Ok(value)
    }

    /// Finds that the value of `key` has another kind.
    pub(crate) fn find_kind(
        &self,
        key: Key,
        value: &Value,
        wanted: ValueKind,
        found: &mut Vec<Finding>,
    ) -> Result<(), AllocError> {
        let kind = ValueKind::of(value);
        let cause = DocumentCause::WrongKind {
            found: kind,
            wanted,
        };
        self.find_at(key, Cause::Document(cause), found)
    }

    /// The whole number at a required key, if it has no fault.
    pub(crate) fn required_whole(
        &self,
        key: Key,
        found: &mut Vec<Finding>,
    ) -> Result<Option<u32>, AllocError> {
        match self.required(key, found)? {
            Some(value) => self.whole(key, value, found),
            None => Ok(None),
        }
    }

    /// The whole number at `key` or its default, if it has no fault.
    pub(crate) fn whole_or(
        &self,
        key: Key,
        default: u32,
        found: &mut Vec<Finding>,
    ) -> Result<Option<u32>, AllocError> {
        match self.value(key) {
            Some(value) => self.whole(key, value, found),
            None => Ok(Some(default)),
        }
    }

    /// A whole number, if it has no fault.
    fn whole(
        &self,
        key: Key,
        value: &Value,
        found: &mut Vec<Finding>,
    ) -> Result<Option<u32>, AllocError> {
        match value {
            Value::Integer(number) => find_range(*number, self.value_place(key), found),
            _ => {
                self.find_kind(key, value, ValueKind::Whole, found)?;
                Ok(None)
            }
        }
    }

    /// The Boolean at `key` or its default, if it has no fault.
    pub(crate) fn bool_or(
        &self,
        key: Key,
        default: bool,
        found: &mut Vec<Finding>,
    ) -> Result<Option<bool>, AllocError> {
        match self.value(key) {
            Some(Value::Boolean(truth)) => Ok(Some(*truth)),
            Some(value) => {
                self.find_kind(key, value, ValueKind::Truth, found)?;
                Ok(None)
            }
            None => Ok(Some(default)),
        }
    }

    /// The string at `key` or its default, if it has no fault.
    pub(crate) fn str_or(
        &self,
        key: Key,
        default: &'a str,
        found: &mut Vec<Finding>,
    ) -> Result<Option<&'a str>, AllocError> {
        match self.value(key) {
            Some(Value::String(text)) => Ok(Some(text.as_str())),
            Some(value) => {
                self.find_kind(key, value, ValueKind::Text, found)?;
                Ok(None)
            }
            None => Ok(Some(default)),
        }
    }

    /// The elements of the array at `key`, or no elements if the key is absent. Returns `None` if
    /// the value has another kind, which is found.
    pub(crate) fn elements(
        &self,
        key: Key,
        found: &mut Vec<Finding>,
    ) -> Result<Option<&'a [Value]>, AllocError> {
        match self.value(key) {
            Some(Value::Array(items)) => Ok(Some(items.as_slice())),
            Some(value) => {
                self.find_kind(key, value, ValueKind::Array, found)?;
                Ok(None)
            }
            None => Ok(Some(&[])),
        }
    }
}

/// The number, if it is from 0 to 2^32 - 1. Another number is found, at `place`.
pub(crate) fn find_range(
    number: i64,
    place: Place,
    found: &mut Vec<Finding>,
) -> Result<Option<u32>, AllocError> {
    if 0 <= number && number <= 0xffff_ffff {
        return Ok(Some(number as u32));
    }
    let cause = DocumentCause::OutOfRange { value: number };
    find(found, Cause::Document(cause), place)?;
    Ok(None)
}

/// Finds the elements of an array that are not tables. Neighbours of one kind are one finding.
pub(crate) fn find_tables(
    key: Key,
    items: &[Value],
    found: &mut Vec<Finding>,
) -> Result<(), AllocError> {
    let mut run: Option<(usize, ValueKind, usize)> = None;
    for (index, item) in items.iter().enumerate() {
        let kind = ValueKind::of(item);
        run = match run {
            Some((first, before, more)) if before == kind => {
                Some((first, before, more.saturating_add(1)))
            }
            _ => {
                find_no_table(key, run, found)?;
                Some((index, kind, 0))
            }
        };
    }
    find_no_table(key, run, found)
}

/// Finds a run of elements of one kind, unless they are tables: the first of them, and how many
/// come after it.
fn find_no_table(
    key: Key,
    run: Option<(usize, ValueKind, usize)>,
    found: &mut Vec<Finding>,
) -> Result<(), AllocError> {
    match run {
        None | Some((_, ValueKind::Table, _)) => Ok(()),
        Some((index, kind, more)) => {
            let cause = DocumentCause::NotTable { found: kind, more };
            find(found, Cause::Document(cause), Place::Element { key, index })
        }
    }
}
