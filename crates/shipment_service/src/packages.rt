//! All packages, in the order of their numbers.

ghost use Rattle.std.specs.Prelude.{◌≡◌, ◌==◌, ◌++◌, [], length, take, OnOk, OnErr};
ghost use Rattle.shipment_service.specs.Tables.{close_if, is_one_of};

use crate::package::Package;
use std::alloc::{AllocError, Global};
use std::marker::Model;

/// All packages, the first of which has number 1. Contracts see the list of them.
#[derive(Debug, Drop)]
pub struct Packages {
    in_order: Vec<Package>,
}

impl Model for Packages {
    ghost use Rattle.std.specs.Prelude.{List};
    ghost use Rattle.shipment_service.specs.declared.package.Package.{Package};

    ghost Value = { List Package };

    ghost view = { λ packages. packages.in_order.items };
}

impl Packages {
    /// No packages. It takes no memory.
    pub fn new(alloc: Global) -> Packages
        ensures { result ≡ [] }
    {
        Packages {
            in_order: Vec::new(alloc),
        }
    }

    /// How many there are.
    pub fn len(&self) -> usize
        ensures { result ≡ length self.now }
    {
        self.in_order.len()
    }

    /// The packages in order.
    pub fn as_slice(&self) -> &[Package]
        ensures { result.now ≡ self.now }
    {
        self.in_order.as_slice()
    }

    /// Puts packages last, all or none.
    pub fn add(&mut self, added: &[Package]) -> Result<(), AllocError>
        ensures ok { OnOk result (self.new ≡ self.old ++ added.now) }
        ensures err { OnErr result (self.new ≡ self.old) }
    {
        self.in_order.extend_from_slice(added)
    }

    /// Takes all but the first ones away. It takes no memory.
    pub fn truncate(&mut self, count: usize)
        ensures { self.new ≡ take count self.old }
    {
        self.in_order.truncate(count);
    }

    // Closes the package with this number. It takes no memory.
    fn close(&mut self, number: u32)
        ensures { self.new ≡ close_if (λ n. n == number) self.old }
    {
        let Some(index) = number.checked_sub(1) else {
            return;
        };
        let Some(package) = self.in_order.get_mut(index as usize) else {
            return;
        };
        package.is_open = false;
    }

    /// Closes the packages with these numbers. It takes no memory.
    pub fn close_all(&mut self, numbers: &[u32])
        ensures { self.new ≡ close_if (is_one_of numbers.now) self.old }
    {
        for number in numbers {
            self.close(*number);
        }
    }
}
