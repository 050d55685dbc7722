//! What several kinds of rows ask of their fields. This file knows no row.

ghost use Rattle.std.specs.Prelude.{◌≡◌, ◌↔◌, IsErrAnd, IsOk, IfErr, Some, string_bytes};
ghost use Rattle.std.specs.Result.{result_ok};
ghost use Rattle.anyhow.specs.Error.{HasMessage};
ghost use Rattle.row_texts.specs.Fields.{start_named, refusal};

use crate::rows::Field;
use anyhow::{Result, bail};

/// Refuses a field whose key is not this one.
pub fn want_key(field: &Field, key: &str) -> Result<()>
    ensures ok { IsOk result ↔ (field.now.key.now ≡ key.now) }
    ensures err { IfErr result (HasMessage (Some (refusal field.now.line field.now.key.now))) }
{
    if field.key == key {
        Ok(())
    } else {
        refuse(field)
    }
}

/// Refuses a field whose key its row may not have; the error names the line.
pub fn refuse(field: &Field) -> Result<()>
    ensures { IsErrAnd result (HasMessage (Some (refusal field.now.line field.now.key.now))) }
{
    bail!("line {}: `{}` can't stand here", field.line, field.key)
}

/// Whether a field says that the solver prints `success` before a command sets it: `on` or `off`. Any other text is
/// an error.
pub fn is_on(field: &Field) -> Result<bool>
    ensures { result_ok result ≡ start_named (string_bytes field.now.text) }
{
    match field.text.as_str() {
        "on" => Ok(true),
        "off" => Ok(false),
        _ => bail!("line {}: the start is `on` or `off`", field.line),
    }
}
