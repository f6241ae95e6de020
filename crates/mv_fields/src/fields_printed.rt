//! Single fields, printed from the type that holds them.

ghost use Rattle.std.specs.Prelude.{◌≡◌, ◌≤◌, OnOk};
ghost use Rattle.mv_syntax.specs.Table.{u, ue, se, when, Valid};
ghost use Rattle.mv_syntax.specs.Printed.{u_to, printed_in};

use crate::printer::Printer;
use std::alloc::AllocError;

impl Printer {
    /// Prints a flag, u(1), under its name.
    pub fn flag(&mut self, name: &str, field: u8) -> Result<(), AllocError>
        requires { Valid (u 1) field }
        ensures { OnOk result (self.new ≡ u_to 1 name.now field self.old) }
    {
        self.u64(name, 1, u64::from(field))
    }

    /// Prints a flag, u(1), under its name, where it is present.
    pub fn flag_if(
        &mut self,
        present: bool,
        name: &str,
        field: Option<u8>,
    ) -> Result<(), AllocError>
        requires { Valid (when present (u 1)) field }
        ensures { OnOk result (self.new ≡ printed_in (when present (u 1)) name.now field self.old) }
    {
        match field {
            Some(field) => self.flag(name, field),
            None => Ok(()),
        }
    }

    /// Prints a field u(n) of at most 8 bits under its name.
    pub fn u8(&mut self, name: &str, n: u8, field: u8) -> Result<(), AllocError>
        requires width { n ≤ 8 }
        requires fits { Valid (u n) field }
        ensures { OnOk result (self.new ≡ u_to n name.now field self.old) }
    {
        self.u64(name, n, u64::from(field))
    }

    /// The same, where it is present.
    pub fn u8_if(
        &mut self,
        present: bool,
        name: &str,
        n: u8,
        field: Option<u8>,
    ) -> Result<(), AllocError>
        requires width { n ≤ 8 }
        requires fits { Valid (when present (u n)) field }
        ensures { OnOk result (self.new ≡ printed_in (when present (u n)) name.now field self.old) }
    {
        match field {
            Some(field) => self.u8(name, n, field),
            None => Ok(()),
        }
    }

    /// Prints a field u(n) of at most 16 bits under its name.
    pub fn u16(&mut self, name: &str, n: u8, field: u16) -> Result<(), AllocError>
        requires width { n ≤ 16 }
        requires fits { Valid (u n) field }
        ensures { OnOk result (self.new ≡ u_to n name.now field self.old) }
    {
        self.u64(name, n, u64::from(field))
    }

    /// The same, where it is present.
    pub fn u16_if(
        &mut self,
        present: bool,
        name: &str,
        n: u8,
        field: Option<u16>,
    ) -> Result<(), AllocError>
        requires width { n ≤ 16 }
        requires fits { Valid (when present (u n)) field }
        ensures { OnOk result (self.new ≡ printed_in (when present (u n)) name.now field self.old) }
    {
        match field {
            Some(field) => self.u16(name, n, field),
            None => Ok(()),
        }
    }

    /// Prints a field u(n) of at most 32 bits under its name.
    pub fn u32(&mut self, name: &str, n: u8, field: u32) -> Result<(), AllocError>
        requires width { n ≤ 32 }
        requires fits { Valid (u n) field }
        ensures { OnOk result (self.new ≡ u_to n name.now field self.old) }
    {
        self.u64(name, n, u64::from(field))
    }

    /// The same, where it is present.
    pub fn u32_if(
        &mut self,
        present: bool,
        name: &str,
        n: u8,
        field: Option<u32>,
    ) -> Result<(), AllocError>
        requires width { n ≤ 32 }
        requires fits { Valid (when present (u n)) field }
        ensures { OnOk result (self.new ≡ printed_in (when present (u n)) name.now field self.old) }
    {
        match field {
            Some(field) => self.u32(name, n, field),
            None => Ok(()),
        }
    }

    /// Prints a field ue(v) under its name, where it is present.
    pub fn ue_if(&mut self, present: bool, name: &str, field: Option<u32>) -> Result<(), AllocError>
        requires { Valid (when present ue) field }
        ensures { OnOk result (self.new ≡ printed_in (when present ue) name.now field self.old) }
    {
        match field {
            Some(field) => self.ue(name, field),
            None => Ok(()),
        }
    }

    /// Prints a field se(v) under its name, where it is present.
    pub fn se_if(&mut self, present: bool, name: &str, field: Option<i32>) -> Result<(), AllocError>
        requires { Valid (when present se) field }
        ensures { OnOk result (self.new ≡ printed_in (when present se) name.now field self.old) }
    {
        match field {
            Some(field) => self.se(name, field),
            None => Ok(()),
        }
    }
}
