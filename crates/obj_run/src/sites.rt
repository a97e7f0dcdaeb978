ghost use Rattle.std.specs.Prelude.{◌≡◌, ◌+◌, ◌≤◌, length};
ghost use Rattle.tac_ir.specs.Counts.{vars_in_funs};
ghost use Rattle.tac_ir.specs.GoodForm.{GoodForm};
ghost use Rattle.obj_run.specs.Objects.{first_variable, first_heap_site};

use tac_ir::{Code, Fun};

// The first site behind the globals and the variables of these functions.
fn site_behind(c: &Code, funs: &[Fun]) -> u32
    requires { length c.now.globals + length (vars_in_funs funs.now) ≤ 16384 }
    ensures { result ≡ length c.now.globals + length (vars_in_funs funs.now) }
{
    let mut site = c.globals.len() as u32;
    for fun in funs {
        site += fun.vars.len() as u32;
    }
    site
}

/// The site of the first variable of a function.
pub(crate) fn first_variable(c: &Code, fun: u32) -> u32
    requires form { GoodForm c.now }
    requires exists { fun ≤ length c.now.funs }
    ensures site { result ≡ first_variable c.now fun }
    ensures few { result ≤ 16384 }
{
    site_behind(c, &c.funs.as_slice()[..fun as usize])
}

/// The first heap site.
pub(crate) fn first_heap_site(c: &Code) -> u32
    requires { GoodForm c.now }
    ensures site { result ≡ first_heap_site c.now }
    ensures few { result ≤ 16384 }
{
    site_behind(c, c.funs.as_slice())
}
