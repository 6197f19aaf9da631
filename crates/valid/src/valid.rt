// A module that is valid.

ghost use Rattle.std.specs.Prelude.{◌≡◌, ◌↔◌, All, IsTrue, IfOk};
ghost use Rattle.std.specs.Arc.{arc_value};
ghost use Rattle.valid.specs.Segments.{ElementFits, DataFits};
ghost use Rattle.valid.specs.Targets.{AreTables};
ghost use Rattle.valid.specs.Valid.{ValidModule};

use crate::segments::{data_fits, elements_fit};
use crate::side_table::SideTable;
use std::alloc::{AllocError, Global};
use std::marker::Model;
use std::sync::Arc;
use syntax::contents::Contents;
use syntax::items::Items;
use syntax::module::Module;

/// A module that is valid (WebAssembly Core 1.0, 3.4). Contracts see its bytes and what they spell.
#[derive(Drop)]
pub struct Valid {
    module: Module,
    tables: Arc<Items<SideTable>, Global>,
}

impl Model for Valid {
    ghost use Rattle.std.specs.Arc.{arc_value};
    ghost use Rattle.syntax.specs.Loaded.{Loaded, loaded_coded};
    ghost use Rattle.valid.specs.Targets.{AreTables};
    ghost use Rattle.valid.specs.Valid.{ValidModule};

    ghost Value = { Loaded };

    ghost coded = { loaded_coded };

    ghost view = { λ v. v.module };

    ghost invariant = { λ v. ValidModule v.module.contents × AreTables v.module.contents (arc_value v.tables) };
}

impl Valid {
    /// A module that was found to be valid, with the side table of each of its functions.
    pub fn new(module: Module, tables: Arc<Items<SideTable>, Global>) -> Valid
        requires valid { ValidModule «module».contents }
        requires told { AreTables «module».contents (arc_value tables) }
        ensures { result ≡ «module» }
    {
        Valid { module, tables }
    }

    /// The module, as it was validated.
    pub fn module(&self) -> &Module
        ensures same { result.now ≡ self.now }
        ensures valid { ValidModule self.now.contents }
    {
        &self.module
    }

    /// What the module contains.
    pub fn contents(&self) -> &Contents
        ensures same { result.now ≡ self.now.contents }
        ensures valid { ValidModule self.now.contents }
    {
        self.module.contents()
    }

    /// The side table of each defined function, at its index. Contracts see the module alone: for them another call
    /// may give other tables that agree with it.
    pub fn tables(&self) -> &[SideTable]
        ensures { AreTables self.now.contents result.now }
    {
        self.tables.as_slice()
    }

    /// The side tables, to be kept beyond this module's loan: a run that is paused goes on with the tables with which it began.
    pub fn share_tables(&self) -> Result<Arc<Items<SideTable>, Global>, AllocError>
        ensures { IfOk result (λ tables. AreTables self.now.contents (arc_value tables)) }
    {
        Ok(Arc::try_clone(&self.tables)?)
    }

    /// Whether every element segment lies within the table as it is initially (WebAssembly Core 1.0, 4.5.4).
    pub fn elements_fit(&self) -> bool
        ensures { IsTrue result ↔ All (ElementFits self.now.contents) self.now.contents.elements }
    {
        elements_fit(self.contents())
    }

    /// Whether every data segment lies within the memory as it is initially (WebAssembly Core 1.0, 4.5.4).
    pub fn data_fits(&self) -> bool
        ensures { IsTrue result ↔ All (DataFits self.now.contents) self.now.contents.«data» }
    {
        data_fits(self.contents())
    }
}
