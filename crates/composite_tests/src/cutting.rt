//! A source that makes a truncation by a pass of its own while it renders for the first time.
ghost use Rattle.std.specs.Prelude.{None};
ghost use Rattle.composite_tests.specs.Fit.{IsFit};

use crate::calls::cut;
use cabinet::Keeper;
use cabinet_chest::CabinetChest;
use cache_hall::Hall;
use catalog::Catalogue;
use metatile_locks::Ticket;
use metatile_plan::Window;
use raster_field::Raster;
use source_render::{Failed, Numbered, Source};
use std::alloc::Global;
use std::marker::Model;
use std::sync::Wait;
use turnstile::Pass;

/// The source of numbered pictures that truncates a layer at zoom 0 while it renders for the first time.
#[derive(Drop)]
pub struct Cutting<'a, R: Wait, K: Keeper> {
    rt: &'a R,
    alloc: Global,
    hall: &'a Hall<K>,
    pass: Pass<CabinetChest<K>>,
    layer: u32,
    /// The number of the truncation, once it was made.
    number: Option<u64>,
    numbered: Numbered,
}

impl<'a, R: Wait, K: Keeper> Model for Cutting<'a, R, K> {
    ghost use Rattle.composite_tests.specs.Fit.{IsFit};
    ghost use Rattle.source_render.specs.declared.numbered.Numbered.{Numbered};

    ghost Value = { Numbered };

    ghost view = { λ s. s.numbered };

    ghost invariant = { λ s. IsFit s.hall.now.turnstile s.hall.now.catalogue s.pass };
}

impl<'a, R: Wait, K: Keeper> Cutting<'a, R, K> {
    /// A source that has not rendered yet.
    pub fn new(
        rt: &'a R,
        alloc: Global,
        hall: &'a Hall<K>,
        pass: Pass<CabinetChest<K>>,
        layer: u32,
    ) -> Cutting<'a, R, K>
        requires { IsFit hall.now.turnstile hall.now.catalogue pass }
    {
        Cutting {
            rt,
            alloc,
            hall,
            pass,
            layer,
            number: None,
            numbered: Numbered::new(0),
        }
    }

    /// The number of the truncation, once it was made.
    pub fn number(&self) -> Option<u64> {
        self.number
    }
}

impl<'a, R: Wait, K: Keeper> Source for Cutting<'a, R, K> {
    ghost told = { λ _. None };

    ghost faults = { λ _. 0 };

    ghost gave = { λ s. ⟦<Numbered as Source>⟧.gave s };

    fn render(
        &mut self,
        catalogue: &Catalogue,
        ticket: &Ticket,
        window: &Window,
        into: &mut Raster,
    ) -> Result<(), Failed> {
        if self.number.is_none() {
            self.number = cut(self.rt, self.alloc, self.hall, &mut self.pass, self.layer);
        }
        self.numbered.render(catalogue, ticket, window, into)
    }
}
