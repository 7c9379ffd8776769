use crate::NamedRows;
use std::marker::Model;
use wire_ids::Eui;

/// Different EUIs, in order. Contracts see them as a list.
#[derive(Drop)]
pub struct EuiList {
    euis: NamedRows<Eui>,
}

impl Model for EuiList {
    ghost use Rattle.std.specs.Prelude.{List};
    ghost use Rattle.wire_ids.specs.declared.eui.Eui.{Eui};

    ghost Value = { List Eui };

    ghost view = { λ l. l.euis };
}

ghost use Rattle.std.specs.Prelude.{◌≡◌};
ghost use Rattle.agreements.specs.Rows.{has_eui};

impl EuiList {
    pub(crate) fn of(euis: NamedRows<Eui>) -> EuiList
        ensures { result ≡ euis }
    {
        EuiList { euis }
    }

    /// Whether it is one of them.
    pub fn contains(&self, eui: Eui) -> bool
        ensures { result ≡ has_eui eui self.now }
    {
        self.euis.contains(eui.0)
    }

    /// They, in order.
    pub fn as_slice(&self) -> &[Eui]
        ensures { result.now ≡ self.now }
    {
        self.euis.as_slice()
    }
}
