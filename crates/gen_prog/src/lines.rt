ghost use Rattle.std.specs.Prelude.{◌≡◌, ◌≤◌, ◌++◌, OnOk};
ghost use Rattle.std.specs.List.{flat_map};
ghost use Rattle.std.specs.String.{string_bytes};
ghost use Rattle.gen_prog.specs.Program.{array_line, branches_line, ended, function_line, line_for_each, loop_line, sum_lines};

use dfi_base::Memory;

pub fn push_array(text: &mut String, n: u32) -> Result<(), Memory>
    requires { n ≤ 200 }
    ensures { OnOk result (string_bytes text.new ≡ string_bytes text.old ++ ended (array_line n)) }
{
    let places = 2 * n;
    writeln!(text, "int t[{places}];")?;
    Ok(())
}

pub fn push_functions(text: &mut String, n: u32) -> Result<(), Memory>
    requires { n ≤ 200 }
    ensures { OnOk result (string_bytes text.new ≡ string_bytes text.old ++ flat_map ended (line_for_each function_line n)) }
{
    for k in 0..n {
        push_function(text, k)?;
    }
    Ok(())
}

fn push_function(text: &mut String, k: u32) -> Result<(), Memory>
    requires { k ≤ 200 }
    ensures { OnOk result (string_bytes text.new ≡ string_bytes text.old ++ ended (function_line k)) }
{
    let factor = k + 1;
    writeln!(
        text,
        "int f{k}(int m) {{ int i; int s; s = 0; for (i = 0; i < m; i++) {{ s = s + i * {factor}; }} return s; }}"
    )?;
    Ok(())
}

pub fn push_branches(text: &mut String, n: u32) -> Result<(), Memory>
    requires { n ≤ 200 }
    ensures { OnOk result (string_bytes text.new ≡ string_bytes text.old ++ flat_map ended (line_for_each branches_line n)) }
{
    for k in 0..n {
        push_branches_of(text, k)?;
    }
    Ok(())
}

fn push_branches_of(text: &mut String, k: u32) -> Result<(), Memory>
    requires { k ≤ 200 }
    ensures { OnOk result (string_bytes text.new ≡ string_bytes text.old ++ ended (branches_line k)) }
{
    let first = 2 * k;
    let second = 2 * k + 1;
    writeln!(
        text,
        "par {{ {{ t[{first}] = f{k}(100); }} {{ t[{second}] = f{k}(50); }} }}"
    )?;
    Ok(())
}

pub fn push_sum(text: &mut String, n: u32) -> Result<(), Memory>
    requires { n ≤ 200 }
    ensures { OnOk result (string_bytes text.new ≡ string_bytes text.old ++ flat_map ended (sum_lines n)) }
{
    writeln!(text, "int i;\nint s;\ns = 0;")?;
    push_loop(text, n)?;
    writeln!(text, "putint(s);\n}}")?;
    Ok(())
}

fn push_loop(text: &mut String, n: u32) -> Result<(), Memory>
    requires { n ≤ 200 }
    ensures { OnOk result (string_bytes text.new ≡ string_bytes text.old ++ ended (loop_line n)) }
{
    let places = 2 * n;
    writeln!(text, "for (i = 0; i < {places}; i++) {{ s = s + t[i]; }}")?;
    Ok(())
}
