// Byte access: the load, its steps, the comparison.
#![tactic(auto, unfolding(crate::specs::Meaning::arith, crate::specs::Meaning::compared, filter::specs::Ast::bytes_of, crate::specs::Meaning::access_at, crate::specs::Meaning::access_layer, crate::specs::Meaning::byte_access, crate::specs::Frame::passes))]

ghost use Rattle.filter.specs.Ast.{bytes_of};
ghost use Rattle.std.specs.Prelude.{◌≡◌, ◌+◌, ◌*◌, ◌%◌, ◌^◌};
ghost use Rattle.meaning.specs.Frame.{number};
ghost use Rattle.meaning.specs.Meaning.{arith, stepped, compared, access_at, byte_access};

use crate::frame::{byte_at, half_at, has, word_at};
use crate::packet::Packet;
use filter::ast::{AccessSize, ArithOp, ByteAccess, CmpOp, CmpRhs, Layer, Step};
use filter::record::step_at;

// The product modulo 2^32, through 64 bits: a helper, as document 01 has it. ebpf's is in a crate that this one does not stand on.
fn mul32(v: u32, k: u32) -> u32
    ensures { result ≡ v * k % 2 ^ 32 }
{
    (v as u64 * k as u64 % 0x1_0000_0000) as u32
}

// Sums, differences, products and shifts wrap on purpose.
pub fn arith(op: ArithOp, v: u32, k: u32) -> u32
    ensures { result ≡ arith op v k }
{
    match op {
        ArithOp::Add => v.wrapping_add(k),
        ArithOp::Sub => v.wrapping_sub(k),
        ArithOp::Mul => mul32(v, k),
        ArithOp::Div => v.checked_div(k).unwrap_or(0),
        ArithOp::Mod => v,
        ArithOp::And => v & k,
        ArithOp::Or => v | k,
        ArithOp::Xor => v ^ k,
        ArithOp::Shl => v.wrapping_shl(k),
        ArithOp::Shr => v.wrapping_shr(k),
    }
}

// What n steps from step j on make of v. The part and n stay two: the promise holds for any n, also where the part has fewer or more.
pub fn stepped(steps: &[u8], n: u16, j: u32, v: u32) -> u32
    ensures { result ≡ stepped steps.now n j v }
{
    let mut w = v;
    for k in 0..n {
        let Step { op, operand } = step_at(steps, j, k);
        w = arith(op, w, operand);
    }
    w
}

// Of 64 bits, for a frame's length.
pub fn compared(op: CmpOp, v: u64, k: u64) -> bool
    ensures { result ≡ compared op v k }
{
    match op {
        CmpOp::Eq => v == k,
        CmpOp::Ne => v != k,
        CmpOp::Lt => v < k,
        CmpOp::Le => v <= k,
        CmpOp::Gt => v > k,
        CmpOp::Ge => v >= k,
        CmpOp::BitAnd => v & k != 0,
    }
}

fn loaded(frame: &[u8], size: AccessSize, base: u32, past: u32) -> u32
    ensures { result ≡ number frame.now (bytes_of size) (base + past) }
{
    match size {
        AccessSize::Byte => byte_at(frame, base, past) as u32,
        AccessSize::Half => half_at(frame, base, past) as u32,
        AccessSize::Word => word_at(frame, base, past),
    }
}

impl Packet<'_> {
    // What an access to `base` means, its comparison being with k.
    // `steps` and `j` stay two: the part is all primitives', `j` counts on over them, and a struct would be built anew for each.
    fn access_at(self, steps: &[u8], j: u32, x: ByteAccess, k: u32, base: u32) -> bool
        ensures { result ≡ access_at self.entry.link self.entry.frame.now steps.now j x k base }
    {
        has(self.frame, x.size.bytes(), base, x.offset)
            && {
                let v = loaded(self.frame, x.size, base, x.offset);
                compared(x.op, stepped(steps, x.steps, j, v) as u64, k as u64)
            }
    }

    // The access's steps start at step j.
    pub fn byte_access(self, steps: &[u8], j: u32, x: ByteAccess) -> bool
        ensures { result ≡ byte_access self.entry.link self.entry.frame.now steps.now j x }
    {
        let CmpRhs::Const(k) = x.rhs else {
            return false;
        };
        let net = self.link.net_offset();
        match x.layer {
            Layer::Raw => self.access_at(steps, j, x, k, 0),
            Layer::Net => self.access_at(steps, j, x, k, net),
            Layer::Trans => {
                has(self.frame, 1, net, 0) && self.access_at(steps, j, x, k, self.start4())
            }
        }
    }
}
