//! What is made of the writes of a trace.

ghost use Rattle.std.specs.Prelude.{◌++◌, ◌∷◌, [], List, OnErr, OnOk};
ghost use Rattle.migration_model.specs.Trace.{GuestWrite};
ghost use Rattle.guest_log.specs.Writes.{shown};

use std::alloc::AllocError;
use trace_codec::WriteView;

/// Something that is made of the writes of a trace, one after another, while the bytes of the trace come.
pub trait WriteVisitor {
    // Whether it can be given a write.
    ghost takes: { Self → GuestWrite → Type 0 };

    // Whether these writes, in order, make the second of the first.
    ghost makes: { Self → Self → List GuestWrite → Type 0 };

    /// Takes the next write. The only error is that memory runs out; then the write is not taken.
    fn visit(&mut self, write: &WriteView<'_>) -> Result<(), AllocError>
        requires { takes self.old (shown write.now) }
        ensures takes { (write : GuestWrite) → takes self.old write → takes self.new write }
        ensures made { OnOk result ((start : Self) (writes : List GuestWrite) → makes start self.old writes
            → makes start self.new (writes ++ shown write.now ∷ [])) }
        ensures unmade { OnErr result ((start : Self) (writes : List GuestWrite) → makes start self.old writes
            → makes start self.new writes) };
}
