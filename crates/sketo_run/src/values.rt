//! Printed values.

use crate::print::Answer;
use data_text::{Failed, Named, Outlet, Sink, write_values};
use std::marker::Model;

/// The printed names of a script with their values, in the order of the print lines. It is seen as
/// their list.
#[derive(Drop)]
pub struct Values {
    pub named: Vec<Named>,
}

impl Model for Values {
    ghost use Rattle.std.specs.Prelude.{List};
    ghost use Rattle.std.specs.Coded.{coded_list};
    ghost use Rattle.data_text.specs.declared.value.Named.{Named};
    ghost use Rattle.data_text.specs.contracts.value.Named.{the_row};

    ghost Value = { List Named };

    ghost coded = { coded_list the_row.coded };

    ghost view = { λ v. v.named.items };
}

impl Answer for Values {
    ghost use Rattle.sketo_run.specs.ValuesText.{values_text};

    ghost text = { values_text };

    fn write<O: Sink>(&self, out: &mut Outlet, sink: &mut O) -> Result<(), Failed> {
        write_values(&self.named, out, sink)
    }
}
