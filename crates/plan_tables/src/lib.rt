// The tables of rows of a plan's layers, for encoding and for undoing.
#![tactic(auto)]

ghost use Rattle.std.specs.Prelude.{◌≡◌, false};
ghost use Rattle.plan.specs.Plan.{bad_layers, bad_kernels};
ghost use Rattle.plan_tables.specs.Tables.{layer_table, undoing_table, Tables};

use plan::Plan;

/// The rows of the kernels of a plan's layers, innermost first.
pub fn layer_tables(plan: Plan) -> [[u16; 16]; 3]
    requires { (bad_layers plan ≡ false) × (bad_kernels plan ≡ false) }
    ensures { Tables plan.layers (layer_table plan) result }
{
    let m = usize::from(plan.layers);
    let mut tables = [[0u16; 16]; 3];
    for i in 0..m {
        tables[i] = kernel::kernel_rows(plan.kernels[i]);
    }
    tables
}

/// The rows of the inverse kernels, outermost first: with them the same stages undo a word.
pub fn undoing_tables(plan: Plan) -> [[u16; 16]; 3]
    requires { (bad_layers plan ≡ false) × (bad_kernels plan ≡ false) }
    ensures { Tables plan.layers (undoing_table plan) result }
{
    let m = usize::from(plan.layers);
    let mut tables = [[0u16; 16]; 3];
    // A second loop, and no `arrays::filled`: a closure which hands out an array needs clauses of its own.
    for i in 0..m {
        tables[i] = kernel::inverse_rows(plan.kernels[m - 1 - i]);
    }
    tables
}
