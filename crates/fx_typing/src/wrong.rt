//! Why parts make nothing.

use fx_base::OrMemory;
use fx_core::Rule;

/// Why parts make nothing: they break this rule, or memory ran out.
pub type Wrong = OrMemory<Rule>;
