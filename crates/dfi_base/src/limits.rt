//! The limits of the product.

ghost use Rattle.std.specs.Prelude.{◌≡◌};
ghost use Rattle.dfi_base.specs.Limits.{
  token_limit,
  nesting_limit,
  function_limit,
  type_limit,
  global_limit,
  frame_limit,
  least_branches,
  branch_limit,
  point_limit,
  definition_limit,
  node_limit,
  temporary_limit,
  fact_limit,
  file_limit,
  list_limit,
  budget_limit,
  default_budget,
  stripe_limit,
  default_stripes,
  worker_limit,
  default_workers,
  depth_limit,
};

pub const TOKEN_LIMIT: u32 = 200_000;

pub const NESTING_LIMIT: u32 = 200;

pub const FUNCTION_LIMIT: u32 = 256;
/// The words of a type.
pub const TYPE_LIMIT: u32 = 24_576;
/// The words of all globals.
pub const GLOBAL_LIMIT: u32 = 8_176;
/// The words of a frame.
pub const FRAME_LIMIT: u32 = 4_096;

pub const LEAST_BRANCHES: u32 = 2;

pub const BRANCH_LIMIT: u32 = 15;

pub const POINT_LIMIT: u32 = 16_384;

pub const DEFINITION_LIMIT: u32 = 4_096;

pub const NODE_LIMIT: u32 = 16_384;

pub const TEMPORARY_LIMIT: u32 = 32_768;

pub const FACT_LIMIT: u32 = 32_768;

/// The bytes of a source or a module.
pub const FILE_LIMIT: u64 = 67_108_864;
/// The bytes of an input, or of the names of a run.
pub const LIST_LIMIT: u64 = 16_777_216;

/// The entries of a run.
pub const BUDGET_LIMIT: u32 = 4_000_000;

pub const DEFAULT_BUDGET: u32 = 1_000_000;

pub const STRIPE_LIMIT: u32 = 64;

pub const DEFAULT_STRIPES: u32 = 16;

pub const WORKER_LIMIT: u32 = 64;

pub const DEFAULT_WORKERS: u32 = 4;
/// How deep a thread may be.
pub const DEPTH_LIMIT: u32 = 14;

/// The limits of sources are those of the definitions.
pub fn sources_have_their_limits()
    ensures tokens { TOKEN_LIMIT ≡ token_limit }
    ensures nesting { NESTING_LIMIT ≡ nesting_limit }
    ensures functions { FUNCTION_LIMIT ≡ function_limit }
    ensures types { TYPE_LIMIT ≡ type_limit }
    ensures globals { GLOBAL_LIMIT ≡ global_limit }
    ensures frames { FRAME_LIMIT ≡ frame_limit }
    ensures few { LEAST_BRANCHES ≡ least_branches }
    ensures branches { BRANCH_LIMIT ≡ branch_limit }
{}

/// The limits of code, modules and files are those of the definitions.
pub fn modules_have_their_limits()
    ensures points { POINT_LIMIT ≡ point_limit }
    ensures definitions { DEFINITION_LIMIT ≡ definition_limit }
    ensures nodes { NODE_LIMIT ≡ node_limit }
    ensures temporaries { TEMPORARY_LIMIT ≡ temporary_limit }
    ensures facts { FACT_LIMIT ≡ fact_limit }
    ensures files { FILE_LIMIT ≡ file_limit }
    ensures lists { LIST_LIMIT ≡ list_limit }
{}

/// The limits of runs are those of the definitions.
pub fn runs_have_their_limits()
    ensures budget { BUDGET_LIMIT ≡ budget_limit }
    ensures usual { DEFAULT_BUDGET ≡ default_budget }
    ensures stripes { STRIPE_LIMIT ≡ stripe_limit }
    ensures usual_stripes { DEFAULT_STRIPES ≡ default_stripes }
    ensures workers { WORKER_LIMIT ≡ worker_limit }
    ensures usual_workers { DEFAULT_WORKERS ≡ default_workers }
    ensures depth { DEPTH_LIMIT ≡ depth_limit }
{}
