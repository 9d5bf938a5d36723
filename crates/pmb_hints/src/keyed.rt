//! A table of a profile, and where it stands in the text.

use crate::draft::Draft;
use crate::values::{Shown, shown};
use crate::walk::{Lost, Path, Step, number_of, number_of_key, text_from};
use std::alloc::Global;
use std::fmt::Write;
use toml::{Table, Value};

/// Where a table stands in a profile's text.
#[derive(Clone, Copy)]
pub(crate) struct TablePlace<'a> {
    pub(crate) alloc: Global,
    pub(crate) text: &'a str,
    /// The number of its device, from 0, if it is not the whole.
    pub(crate) device: Option<usize>,
    /// The number of its command, from 0, if it is one.
    pub(crate) command: Option<usize>,
    /// The addresses that the profile ignores.
    pub(crate) ignored: &'a [Value],
    /// The devices of the profile.
    pub(crate) devices: &'a [Value],
    /// How many pages its device has.
    pub(crate) pages: i64,
}

impl<'a> TablePlace<'a> {
    /// A table at this place, and the tables before it in its array.
    pub(crate) fn keys_of(self, table: &'a Table, before: &'a [Value]) -> Keyed<'a> {
        Keyed {
            place: self,
            prefix: "",
            table,
            before,
        }
    }

    /// The steps to this place, and from there to a table in it, to a key and to an item of its array.
    fn path<'k>(
        self,
        table: Option<&'static str>,
        key: Option<&'k str>,
        item: Option<usize>,
    ) -> Path<'k> {
        let mut path = Path::new();
        if let Some(device) = self.device {
            let _ = path.try_push(Step::Key("device"));
            let _ = path.try_push(Step::Item(device));
        }
        if let Some(command) = self.command {
            let _ = path.try_push(Step::Key("command"));
            let _ = path.try_push(Step::Item(command));
        }
        if let Some(table) = table {
            let _ = path.try_push(Step::Key(table));
        }
        if let Some(key) = key {
            let _ = path.try_push(Step::Key(key));
        }
        if let Some(item) = item {
            let _ = path.try_push(Step::Item(item));
        }
        path
    }

    /// The text from such a place on.
    fn text_from(
        self,
        table: Option<&'static str>,
        key: Option<&str>,
        item: Option<usize>,
    ) -> Result<&'a str, Lost> {
        text_from(
            self.alloc,
            self.text,
            self.path(table, key, item).as_slice(),
        )
    }

    /// The fault is what is at this place.
    pub(crate) fn stand(self, lines: &mut Draft) {
        lines.stand(self.text, self.text_from(None, None, None));
    }
}

/// A table of a profile, whose keys are written with their values.
#[derive(Clone, Copy)]
pub(crate) struct Keyed<'a> {
    pub(crate) place: TablePlace<'a>,
    /// What comes before its keys where they are written.
    pub(crate) prefix: &'static str,
    pub(crate) table: &'a Table,
    /// The tables before it in the array that it is in: devices, or commands of its device.
    pub(crate) before: &'a [Value],
}

impl<'a> Keyed<'a> {
    /// The table `vout_direct` of a device, if it has one.
    pub(crate) fn direct(&self) -> Option<Keyed<'a>> {
        self.within("vout_direct", "vout_direct.")
    }

    /// The table `vid` of a device, if it has one.
    pub(crate) fn vid(&self) -> Option<Keyed<'a>> {
        self.within("vid", "vid.")
    }

    /// The table `bits` of a command, if it has one.
    pub(crate) fn bits(&self) -> Option<Keyed<'a>> {
        self.within("bits", "bits.")
    }

    /// The table that a key has, if it has one, and what comes before its keys.
    fn within(&self, key: &str, prefix: &'static str) -> Option<Keyed<'a>> {
        let table = self.get(key)?.as_table()?;
        Some(Keyed {
            place: self.place,
            prefix,
            table,
            before: self.before,
        })
    }

    /// The value of a key.
    pub(crate) fn get(&self, key: &str) -> Option<&'a Value> {
        self.table.get(key)
    }

    /// The text that a key has.
    pub(crate) fn text(&self, key: &str) -> Option<&'a str> {
        self.table.get(key)?.as_str()
    }

    /// Whether a key has a word, in either case.
    pub(crate) fn has_word(&self, key: &str, word: &str) -> bool {
        match self.text(key) {
            Some(text) => text.eq_ignore_ascii_case(word),
            None => false,
        }
    }

    /// The number that a key has.
    pub(crate) fn number(&self, key: &str) -> Option<i64> {
        self.table.get(key)?.as_integer()
    }

    /// The items of the array that a key has.
    pub(crate) fn items(&self, key: &str) -> Option<&'a [Value]> {
        Some(self.get(key)?.as_array()?.as_slice())
    }

    /// The text from where this table begins: its header, or its key, or its value in an array. Or from a
    /// key of it on, or from an item of the key's array.
    fn text_from(&self, key: Option<&str>, item: Option<usize>) -> Result<&'a str, Lost> {
        self.place
            .text_from(self.prefix.strip_suffix("."), key, item)
    }

    /// The fault is in this table, if nothing says where.
    pub(crate) fn stand(&self, lines: &mut Draft) {
        if lines.at.is_none() {
            lines.stand(self.place.text, self.text_from(None, None));
        }
    }

    /// The fault is at a key.
    pub(crate) fn stand_at(&self, key: &str, lines: &mut Draft) {
        lines.stand(self.place.text, self.text_from(Some(key), None));
    }

    /// The fault is at the first of some keys that is there.
    pub(crate) fn stand_at_first(&self, keys: &[&str], lines: &mut Draft) {
        for key in keys {
            if self.get(*key).is_some() {
                self.stand_at(*key, lines);
                return;
            }
        }
    }

    /// The fault is at an item of a key's array.
    pub(crate) fn stand_at_item(&self, key: &str, number: usize, lines: &mut Draft) {
        lines.stand(self.place.text, self.text_from(Some(key), Some(number)));
    }

    /// Writes a key, its value and a rule on a line if the key is there, and returns whether it is.
    pub(crate) fn rule(&self, key: &str, rule: &str, lines: &mut Draft) -> bool {
        let Some(value) = self.table.get(key) else {
            return false;
        };
        let from = self.text_from(Some(key), None);
        lines.stand(self.place.text, from);
        let shown = match (from, value.as_integer()) {
            (Ok(text), Some(number)) => lines.spelled(
                number_of_key(self.place.alloc, text, number),
                value,
            ),
            _ => shown(value),
        };
        let prefix = self.prefix;
        let _ = write!(lines.text, "  {prefix}{key} = {}: {rule}\n", shown.as_str());
        true
    }

    /// Writes an item of a key's array and a rule on a line if the item is there, and returns whether it
    /// is.
    pub(crate) fn item_rule(&self, key: &str, place: usize, rule: &str, lines: &mut Draft) -> bool {
        let Some(items) = self.items(key) else {
            return false;
        };
        let Some(item) = items.get(place) else {
            return false;
        };
        let from = self.text_from(Some(key), Some(place));
        lines.stand(self.place.text, from);
        let shown = match (from, item.as_integer()) {
            (Ok(text), Some(number)) => lines.spelled(
                number_of(self.place.alloc, text, number),
                item,
            ),
            _ => shown(item),
        };
        let _ = write!(
            lines.text,
            "  {key}[{place}] = {}: {rule}\n",
            shown.as_str()
        );
        true
    }
}
