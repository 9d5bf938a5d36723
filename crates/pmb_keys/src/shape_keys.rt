//! What a command's table says of its forms.
//!
//! Its rows: `tests/rows/forms.txt`, `tests/rows/profiles.txt`.

ghost use Rattle.std.specs.Prelude.{◌≡◌, codes};
ghost use Rattle.toml.specs.View.{table_view};
ghost use Rattle.pmb_keys.specs.Rules.{defaulted};
ghost use Rattle.pmb_keys.specs.CommandRules.{word_rule, write_forms, read_forms, call_forms, shape_rule};

use crate::fault::FaultKind;
use crate::rules::{find, text_of};
use crate::words::{call_form, read_form, write_form};
use pmb_command::{Form, Shape};
use toml::Table;

/// The form in which a command is written.
fn form_of_write(base: Option<Form>, table: &Table) -> Result<Option<Form>, FaultKind>
    ensures { result ≡ defaulted (word_rule FaultKind.BadForm write_forms) base (codes "write") (table_view table.now) }
{
    let Some(value) = find(table, "write") else {
        return Ok(base);
    };
    match write_form(text_of(value)?) {
        Some(form) => Ok(form),
        None => Err(FaultKind::BadForm),
    }
}

/// The form in which a command is read.
fn form_of_read(base: Option<Form>, table: &Table) -> Result<Option<Form>, FaultKind>
    ensures { result ≡ defaulted (word_rule FaultKind.BadForm read_forms) base (codes "read") (table_view table.now) }
{
    let Some(value) = find(table, "read") else {
        return Ok(base);
    };
    match read_form(text_of(value)?) {
        Some(form) => Ok(form),
        None => Err(FaultKind::BadForm),
    }
}

/// The form in which a command is called.
fn form_of_call(base: Option<Form>, table: &Table) -> Result<Option<Form>, FaultKind>
    ensures { result ≡ defaulted (word_rule FaultKind.BadForm call_forms) base (codes "call") (table_view table.now) }
{
    let Some(value) = find(table, "call") else {
        return Ok(base);
    };
    match call_form(text_of(value)?) {
        Some(form) => Ok(form),
        None => Err(FaultKind::BadForm),
    }
}

/// The forms of a command, where those of the base stay without a key.
pub(crate) fn read_shape(base: Shape, table: &Table) -> Result<Shape, FaultKind>
    ensures { result ≡ shape_rule base (table_view table.now) }
{
    let write = form_of_write(base.write, table)?;
    let read = form_of_read(base.read, table)?;
    let call = form_of_call(base.call, table)?;
    Ok(Shape { write, read, call })
}
