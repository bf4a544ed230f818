// The choice of an origin, in forwarding's order.
ghost use Rattle.std.specs.Prelude.{◌≡◌};
ghost use Rattle.origin.specs.Origins.{cpuid_holds, named_origin, older_origin, origin_from, origins_of};

use crate::{Origin, Origins};
use latch::{ExMem, IdEx, MemWb};

// Whether a CPUID that is on holds register `r`.
#[tactic(auto, unfolding(crate::specs::Origins::cpuid_holds))]
fn cpuid_holds(on: bool, r: u8) -> bool
    ensures { result ≡ cpuid_holds on r }
{
    on & ((1 == r) | (2 == r))
}

// Where the value of a register that EX/MEM does not give comes from.
#[tactic(auto, unfolding(crate::specs::Origins::older_origin))]
fn older_origin(w: MemWb, r: u8) -> Origin
    ensures { result ≡ older_origin w r }
{
    if w.holds(r) {
        return Origin::MemWb;
    }
    if cpuid_holds(w.valid & w.cpuid, r) {
        return Origin::MemWbCpuid;
    }
    Origin::RegisterFile
}

// Where the value of a register comes from. The two latches come apart, here and below, as in latch's `operand`.
#[tactic(auto, unfolding(crate::specs::Origins::origin_from))]
pub fn origin_of(x: ExMem, w: MemWb, r: u8) -> Origin
    ensures { result ≡ origin_from x w r }
{
    if r == 0 {
        return Origin::ZeroRegister;
    }
    if x.holds(r) {
        return Origin::ExMem;
    }
    if cpuid_holds(x.valid & x.cpuid, r) {
        return Origin::ExMemCpuid;
    }
    older_origin(w, r)
}

// The origin of an operand, which its latch names or not.
#[tactic(auto, unfolding(crate::specs::Origins::named_origin))]
fn named_origin(named: bool, x: ExMem, w: MemWb, r: u8) -> Origin
    ensures { result ≡ named_origin named x w r }
{
    if named {
        return origin_of(x, w, r);
    }
    Origin::RegisterFile
}

// The origins of a latch's operands, whatever else it holds.
#[tactic(auto, unfolding(crate::specs::Origins::origins_of))]
pub fn origins_of(x: ExMem, w: MemWb, d: IdEx) -> Origins
    ensures { result ≡ origins_of x w d }
{
    let a = named_origin(0 < d.n_srcs, x, w, d.src_a);
    let b = named_origin(1 < d.n_srcs, x, w, d.src_b);
    Origins { a, b }
}
