//! Fields under a rule or a limit that a condition may leave out, printed.

ghost use Rattle.std.specs.Prelude.{◌≡◌, ◌≤◌, OnOk};
ghost use Rattle.mv_syntax.specs.Table.{u, ue, when, Valid};
ghost use Rattle.mv_syntax.specs.Words.{◌!◌∶◌, ◌unless◌, over, at_least, is_set};
ghost use Rattle.mv_syntax.specs.Printed.{printed_in};

use crate::printer::Printer;
use mv_rules::Rule;
use std::alloc::AllocError;

impl Printer {
    /// Prints a field ue(v) under its name, where it is present; it breaks the rule where it is over `limit`.
    pub fn ue_within_if(
        &mut self,
        present: bool,
        name: &str,
        rule: Rule,
        limit: u32,
        field: Option<u32>,
    ) -> Result<(), AllocError>
        requires { Valid (when present (ue ! rule ∶ over limit)) field }
        ensures { OnOk result (self.new ≡ printed_in (when present (ue ! rule ∶ over limit)) name.now field self.old) }
    {
        match field {
            Some(field) => self.ue(name, field),
            None => Ok(()),
        }
    }

    /// Prints a field ue(v) of a shared structure under its name, where it is present; it is past its limit where it is over
    /// `limit`.
    pub fn ue_limited_if(
        &mut self,
        present: bool,
        name: &str,
        limit: u32,
        field: Option<u32>,
    ) -> Result<(), AllocError>
        requires { Valid (when present (ue unless over limit)) field }
        ensures { OnOk result (self.new ≡ printed_in (when present (ue unless over limit)) name.now field self.old) }
    {
        match field {
            Some(field) => self.ue(name, field),
            None => Ok(()),
        }
    }

    /// Prints a field u(n) of at most 32 bits under its name, where it is present; it breaks the rule where it is over `limit`.
    pub fn u32_within_if(
        &mut self,
        present: bool,
        name: &str,
        n: u8,
        rule: Rule,
        limit: u32,
        field: Option<u32>,
    ) -> Result<(), AllocError>
        requires width { n ≤ 32 }
        requires fits { Valid (when present (u n ! rule ∶ over limit)) field }
        ensures { OnOk result (self.new ≡ printed_in (when present (u n ! rule ∶ over limit)) name.now field self.old) }
    {
        match field {
            Some(field) => self.u32(name, n, field),
            None => Ok(()),
        }
    }

    /// Prints a field u(n) of at most 8 bits under its name, where it is present; it breaks the rule where it is not below
    /// `bound`.
    pub fn u8_below_if(
        &mut self,
        present: bool,
        name: &str,
        n: u8,
        rule: Rule,
        bound: u32,
        field: Option<u8>,
    ) -> Result<(), AllocError>
        requires width { n ≤ 8 }
        requires fits { Valid (when present (u n ! rule ∶ at_least bound)) field }
        ensures { OnOk result (self.new ≡ printed_in (when present (u n ! rule ∶ at_least bound)) name.now field self.old) }
    {
        match field {
            Some(field) => self.u8(name, n, field),
            None => Ok(()),
        }
    }

    /// Prints a flag, u(1), under its name, where it is present; it breaks the rule where it is 1.
    pub fn unset_flag_if(
        &mut self,
        present: bool,
        name: &str,
        rule: Rule,
        field: Option<u8>,
    ) -> Result<(), AllocError>
        requires { Valid (when present (u 1 ! rule ∶ is_set)) field }
        ensures { OnOk result (self.new ≡ printed_in (when present (u 1 ! rule ∶ is_set)) name.now field self.old) }
    {
        match field {
            Some(field) => self.flag(name, field),
            None => Ok(()),
        }
    }
}
