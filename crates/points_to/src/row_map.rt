ghost use Rattle.std.specs.Prelude.{◌≡◌, ◌+◌, ◌<◌, length, IfOk};
ghost use Rattle.tac_ir.specs.Counts.{temps_of, temps_of_fun};
ghost use Rattle.tac_ir.specs.GoodForm.{GoodForm};
ghost use Rattle.code_layout.specs.LayoutOf.{IsLayoutOf};
ghost use Rattle.points_to.specs.Rows.{temps_before, row_number, row_count, IsRow};
ghost use Rattle.points_to.specs.Rows.Row.{in_temp, leaves_in, returned};
ghost use Rattle.points_to.specs.tools.RowMaps.{IsRowMapOf, AreStarts};

use code_layout::Layout;
use dfi_base::Memory;
use flow_rules::site_node;
use sqlite_items::Items;
use std::alloc::Global;
use tac_ir::Code;

/// Where the rows of the temporaries of each function begin, among those of all.
#[derive(Drop)]
pub struct RowMap {
    pub nodes: u32,
    pub temps: u32,
    pub starts: Items<u32>,
}

impl RowMap {
    pub fn of(alloc: Global, c: &Code) -> Result<RowMap, Memory>
        requires { GoodForm c.now }
        ensures { IfOk result (IsRowMapOf c.now) }
    {
        let layout = Layout::of(alloc, c)?;
        let starts = starts_of(alloc, c, &layout)?;
        Ok(RowMap {
            nodes: site_node(c, c.sites.len() as u32),
            temps: starts.as_slice()[c.funs.len()],
            starts: Items::from_vec(starts),
        })
    }

    // The temporaries before a function.
    fn start(&self, c: &Code, fun: u32) -> u32
        requires map { IsRowMapOf c.now self.now }
        requires fun { fun < length c.now.funs }
        ensures { result ≡ temps_before c.now fun }
    {
        self.starts.as_slice()[fun as usize]
    }

    /// The temporaries of a function.
    pub fn temps_of(&self, c: &Code, fun: u32) -> u32
        requires map { IsRowMapOf c.now self.now }
        requires fun { fun < length c.now.funs }
        ensures { result ≡ temps_of c.now fun }
    {
        self.starts.as_slice()[fun as usize + 1] - self.start(c, fun)
    }

    /// The row of a temporary.
    pub fn temp(&self, c: &Code, fun: u32, temp: u32) -> u32
        requires form { GoodForm c.now }
        requires map { IsRowMapOf c.now self.now }
        requires fun { fun < length c.now.funs }
        requires temp { temp < temps_of c.now fun }
        ensures { result ≡ row_number c.now (in_temp fun temp) }
    {
        self.nodes + (self.start(c, fun) + temp)
    }

    /// The row of the leaves to which a temporary may point.
    pub fn leaves(&self, c: &Code, fun: u32, temp: u32) -> u32
        requires form { GoodForm c.now }
        requires map { IsRowMapOf c.now self.now }
        requires fun { fun < length c.now.funs }
        requires temp { temp < temps_of c.now fun }
        ensures { result ≡ row_number c.now (leaves_in fun temp) }
    {
        self.nodes + (self.temps + (self.start(c, fun) + temp))
    }

    /// The row of what a function returns.
    pub fn returned(&self, c: &Code, fun: u32) -> u32
        requires form { GoodForm c.now }
        requires map { IsRowMapOf c.now self.now }
        requires fun { fun < length c.now.funs }
        ensures { result ≡ row_number c.now (returned fun) }
    {
        self.nodes + (self.temps + (self.temps + fun))
    }

    /// How many rows there are.
    pub fn count(&self, c: &Code) -> u32
        requires form { GoodForm c.now }
        requires map { IsRowMapOf c.now self.now }
        ensures { result ≡ row_count c.now }
    {
        self.nodes + (self.temps + (self.temps + c.funs.len() as u32))
    }
}

// The temporaries before each function, and behind them those of all.
fn starts_of(alloc: Global, c: &Code, layout: &Layout) -> Result<Vec<u32>, Memory>
    requires form { GoodForm c.now }
    requires layout { IsLayoutOf c.now layout.now }
    ensures { IfOk result (λ starts. AreStarts c.now (length c.now.funs + 1) starts.items) }
{
    let mut starts = Vec::new(alloc);
    let mut next = 0;
    for fun in 0..c.funs.len() as u32 {
        starts.push(next)?;
        next += layout.temps_of(fun) as u32;
    }
    starts.push(next)?;
    Ok(starts)
}
