// Patch bookkeeping of ebpf_codegen.rs: instructions with open jumps in lent bytes, the lists of these jumps and the
// operators that wait in lent numbers. Seven methods are `pub`, and the two functions beneath two of them, which ask for less;
// they are for the crates of the generator, and each caller shows what they ask.
#![tactic(auto)]

ghost use Rattle.std.specs.Prelude.{◌≡◌, ◌+◌, ◌*◌, ◌^◌, ◌<◌, ◌≤◌, length, set};
ghost use Rattle.refusals.specs.declared.Reason.TheVariants.{FarJump};
ghost use Rattle.patches.specs.Chain.{Descends, chain_of, put_off, resolved, reach};
ghost use Rattle.patches.specs.Code.{Room, with_off, emission, push1, with_out, with_work, with_patches};
ghost use Rattle.patches.specs.Code.Slot.{fixed, success, failure};
ghost use Rattle.patches.specs.Finish.{CloseOk, FinishOk};
ghost use Rattle.patches.specs.Lists.{pushed, pushed_links, joined, joined_links, saved_at, save_at};
ghost use Rattle.patches.specs.Operators.{pending_of, turn_of, over_of, right_of, lands, closed_as, land_of, left_of};
ghost use Rattle.patches.specs.Rel.{Some, SomeTop};
ghost use Rattle.patches.specs.Same.{SameFrom, Kept};

use ebpf::insn::Insn;
use filter::ast::LinkType;
use refusals::{Reason, Refusal};

// What a pending operator waits for, by the Rust's names of its work: a token 1, 2 or 3 begins as the first three.
// `work` holds its number, so who saves and reads it takes a `u32`.
#[derive(Clone, Copy)]
pub(crate) enum Pending {
    AndRight = 1,
    OrRight = 2,
    NotDone = 3,
    AndDone = 4,
    OrDone = 5,
}

impl From<u32> for Pending {
    ghost from_gives = { λ op pending. pending ≡ pending_of op };

    fn from(op: u32) -> Self {
        match op {
            1 => Pending::AndRight,
            2 => Pending::OrRight,
            4 => Pending::AndDone,
            5 => Pending::OrDone,
            _ => Pending::NotDone,
        }
    }
}

// A list of open jumps, the last first: the place of the first in the list plus one, 0 for none, and the place of the
// last in the list. `work` holds the links between them.
#[derive(Clone, Copy)]
pub struct PatchList {
    pub head: u32,
    pub tail: u32,
}

// No jumps.
pub const NONE: PatchList = PatchList { head: 0, tail: 0 };

// The next place, and the open jumps of what was written last.
#[derive(Clone, Copy)]
pub struct Patches {
    pub pos: u32,
    pub success: PatchList,
    pub failure: PatchList,
}

// The Rust's `Codegen`: the lent output and work, the open jumps, and what stays over a program, its mode and link.
// The mode stays a byte: what is promised of the code is promised of any byte, 0 being plain and every other mended.
#[derive(Drop)]
pub struct Codegen<'a> {
    pub out: &'a mut [u8],
    pub work: &'a mut [u32],
    pub patches: Patches,
    pub mode: u8,
    pub link: LinkType,
}

// Refusal 10: a jump's distance is above 32767.
#[derive(Clone, Copy)]
pub struct TooFar;

impl From<TooFar> for Refusal {
    ghost from_gives = { λ _ refusal. refusal ≡ record { reason = FarJump; place = 0 } };

    fn from(_: TooFar) -> Self {
        Reason::FarJump.at(0)
    }
}

// An operator is done, or waits for its other operand.
#[derive(Clone, Copy)]
enum Closed {
    Up,
    Stay,
}

// The one place that sets the distance of an open jump.
#[tactic(auto, unfolding(crate::specs::Chain::put_off))]
fn put_off(out: &mut [u8], p: usize, distance: usize)
    requires { (8 * p + 8 ≤ length out.old) × (distance < 65536) }
    ensures { out.new ≡ put_off out.old p distance }
{
    let [low, high] = (distance as u16).to_le_bytes();
    out[8 * p + 2] = low;
    out[8 * p + 3] = high;
}

// Every jump of the list goes to the target, the last first. The numbers of `work` are read alone: who has them shared can call it.
pub fn resolve_all(
    out: &mut [u8],
    work: &[u32],
    l: usize,
    head: usize,
    target: usize,
) -> Result<(), TooFar>
    requires descends { Descends l work.now }
    requires l_in_bounds { (l ≤ length work.now) × (head ≤ l) × (head ≤ target) × (8 * l ≤ length out.old) }
    ensures value { result ≡ reach target (chain_of work.now head) }
    ensures out_after { out.new ≡ resolved target (chain_of work.now head) out.old }
{
    let mut head = head;
    // A while: the next place is the link just read.
    while 0 < head {
        let distance = target - head;
        if 32767 < distance {
            return Err(TooFar);
        }
        let p = head - 1;
        put_off(out, p, distance);
        head = work[p] as usize;
    }
    Ok(())
}

// The same where both are lent alone, as a `Codegen` has them.
fn resolve_in(
    out: &mut [u8],
    work: &mut [u32],
    l: usize,
    head: usize,
    target: usize,
) -> Result<(), TooFar>
    requires descends { Descends l work.old }
    requires l_in_bounds { (l ≤ length work.old) × (head ≤ l) × (head ≤ target) × (8 * l ≤ length out.old) }
    ensures value { result ≡ reach target (chain_of work.old head) }
    ensures out_after { out.new ≡ resolved target (chain_of work.old head) out.old }
    ensures work_unchanged { work.new ≡ work.old }
{
    resolve_all(out, work, l, head, target)
}

// A pending operator at `base`: what it waits for, and the list that it keeps.
pub fn save(work: &mut [u32], base: usize, op: u32, kept: PatchList)
    requires { base + 3 ≤ length work.old }
    ensures { work.new ≡ save_at work.old base op kept }
{
    work[base] = op;
    work[base + 1] = kept.head;
    work[base + 2] = kept.tail;
}

// Number p of `work`; where there is none, nothing.
fn set_link(work: &mut [u32], p: u32, link: u32)
    ensures { work.new ≡ set work.old p link }
{
    let i = p as usize;
    if i < work.len() {
        work[i] = link;
    }
}

// A patch before the others.
fn push_patch(work: &mut [u32], list: PatchList, p: u32) -> PatchList
    requires { p + 1 < 2 ^ 32 }
    ensures value { result ≡ pushed list p }
    ensures work_after { work.new ≡ pushed_links work.old list p }
{
    set_link(work, p, list.head);
    PatchList {
        head: p + 1,
        tail: if list.head == 0 { p } else { list.tail },
    }
}

// The Rust's `concat`, in constant time: the later list, then the earlier.
fn join(work: &mut [u32], later: PatchList, earlier: PatchList) -> PatchList
    ensures value { result ≡ joined later earlier }
    ensures work_after { work.new ≡ joined_links work.old later earlier }
{
    if later.head == 0 {
        return earlier;
    }
    if earlier.head == 0 {
        return later;
    }
    set_link(work, later.tail, earlier.head);
    PatchList {
        head: later.head,
        tail: earlier.tail,
    }
}

impl Codegen<'_> {
    // An instruction that is whole.
    pub fn push(&mut self, i: Insn)
        requires { Room 1 self.old.patches }
        ensures { emission self.new ≡ push1 (fixed i) (emission self.old) }
    {
        let pos = self.patches.pos;
        i.store(self.out, 8 * pos as usize);
        self.patches.pos = pos + 1;
    }

    // A jump over so many instructions; where there is no room for it, `store` wrote nothing and nothing is set.
    pub fn push_jump(&mut self, i: Insn, distance: u16)
        requires { Room 1 self.old.patches }
        ensures { emission self.new ≡ push1 (fixed (with_off distance i)) (emission self.old) }
    {
        self.push(Insn { off: distance, ..i });
    }

    // A jump that is open on success. This and the next stay two, for two lists: a list picked by a parameter would be no plainer.
    pub fn push_success(&mut self, i: Insn)
        requires { Room 1 self.old.patches }
        ensures { emission self.new ≡ push1 (success i) (emission self.old) }
    {
        let pos = self.patches.pos;
        self.push(i);
        self.patches.success = push_patch(self.work, self.patches.success, pos);
    }

    // A jump that is open on failure.
    pub fn push_failure(&mut self, i: Insn)
        requires { Room 1 self.old.patches }
        ensures { emission self.new ≡ push1 (failure i) (emission self.old) }
    {
        let pos = self.patches.pos;
        self.push(i);
        self.patches.failure = push_patch(self.work, self.patches.failure, pos);
    }

    // Every jump of the list goes to the target, the last first.
    pub fn resolve_all(&mut self, l: usize, head: usize, target: usize) -> Result<(), TooFar>
        requires descends { Descends l self.old.work.now }
        requires l_in_bounds { (l ≤ length self.old.work.now) × (head ≤ l) × (head ≤ target) × (8 * l ≤ length self.old.out.now) }
        ensures value { result ≡ reach target (chain_of self.old.work.now head) }
        ensures out_after { emission self.new ≡ with_out (resolved target (chain_of self.old.work.now head) self.old.out.now) (emission self.old) }
    {
        resolve_in(self.out, self.work, l, head, target)
    }

    // The list that the pending operator at `base` keeps.
    fn saved(&self, base: usize) -> PatchList
        requires { base + 3 ≤ length self.now.work.now }
        ensures { result ≡ saved_at self.now.work.now base }
    {
        PatchList {
            head: self.work[base + 1],
            tail: self.work[base + 2],
        }
    }

    // A pending operator at `base`: what it waits for, and the list that it keeps.
    pub fn save(&mut self, base: usize, op: u32, kept: PatchList)
        requires { base + 3 ≤ length self.old.work.now }
        ensures { emission self.new ≡ with_work (save_at self.old.work.now base op kept) (emission self.old) }
    {
        save(self.work, base, op, kept);
    }

    // Successes and failures change places.
    fn turn(&mut self)
        ensures { emission self.new ≡ with_patches (turn_of self.old.patches) (emission self.old) }
    {
        let Patches {
            success,
            failure,
            ..
        } = self.patches;
        self.patches.success = failure;
        self.patches.failure = success;
    }

    // The jump of an Or or a Not, one of its successes; what fails goes on behind it.
    fn push_over(&mut self)
        requires { Room 1 self.old.patches }
        ensures { emission self.new ≡ over_of (emission self.old) }
    {
        self.push_success(Insn::ja(0));
        self.turn();
    }

    // Both operands of the And at `base` are done: the failures of both.
    fn right(&mut self, base: usize)
        requires { base + 3 ≤ length self.old.work.now }
        ensures { emission self.new ≡ right_of base (emission self.old) }
    {
        let kept = self.saved(base);
        self.patches.failure = join(self.work, self.patches.failure, kept);
    }

    // The successes go on at the next place.
    fn land(&mut self, l: usize) -> Result<Closed, TooFar>
        requires descends { Descends l self.old.work.now }
        requires l_in_bounds { (l ≤ length self.old.work.now) × (self.old.patches.success.head ≤ l) × (self.old.patches.success.head ≤ self.old.patches.pos) × (8 * l ≤ length self.old.out.now) }
        ensures value { result ≡ closed_as Closed.Up (lands (emission self.old)) }
        ensures after { emission self.new ≡ land_of (lands (emission self.old)) (emission self.old) }
    {
        self.resolve_all(
            l,
            self.patches.success.head as usize,
            self.patches.pos as usize,
        )?;
        self.patches.success = NONE;
        Ok(Closed::Up)
    }

    // The successes go on at the next place, where the next operand begins; the operator at `base` keeps the failures and
    // waits as `op`.
    fn left(&mut self, l: usize, base: usize, op: u32) -> Result<Closed, TooFar>
        requires descends { Descends l self.old.work.now }
        requires l_in_bounds { (l ≤ length self.old.work.now) × (self.old.patches.success.head ≤ l) × (self.old.patches.success.head ≤ self.old.patches.pos) × (8 * l ≤ length self.old.out.now) × (base + 3 ≤ length self.old.work.now) }
        ensures value { result ≡ closed_as Closed.Stay (lands (emission self.old)) }
        ensures after { emission self.new ≡ left_of (lands (emission self.old)) base op (emission self.old) }
    {
        self.resolve_all(
            l,
            self.patches.success.head as usize,
            self.patches.pos as usize,
        )?;
        self.save(base, op, self.patches.failure);
        self.patches.success = NONE;
        self.patches.failure = NONE;
        Ok(Closed::Stay)
    }

    // The operand of pending operator n, which waits as `op`, is done. An Or's right operand is an And's with successes and
    // failures turned; Or and Not write their jump, then their failures land as an And's successes do.
    fn close(&mut self, l: usize, n: usize, op: u32) -> Result<Closed, TooFar>
        requires some_top { SomeTop l self.old.work.now n op self.old.patches }
        requires l_in_bounds { (8 * l ≤ length self.old.out.now) × (l < 2 ^ 32) }
        ensures close_ok { CloseOk l n op (emission self.old) result (emission self.new) }
        ensures kept { Kept (emission self.old) (emission self.new) }
        ensures same_from { SameFrom (8 * l) self.old.out.now self.new.out.now }
        ensures same_from_2 { SameFrom (l + 3 * n + 3) self.old.work.now self.new.work.now }
    {
        let base = l + 3 * n;
        match Pending::from(op) {
            Pending::AndDone => {
                self.right(base);
                Ok(Closed::Up)
            }
            Pending::OrDone => {
                self.turn();
                self.right(base);
                self.turn();
                Ok(Closed::Up)
            }
            Pending::AndRight => self.left(l, base, Pending::AndDone as u32),
            Pending::OrRight => {
                self.push_over();
                self.left(l, base, Pending::OrDone as u32)
            }
            Pending::NotDone => {
                self.push_over();
                self.land(l)
            }
        }
    }

    // An operand is done: so are the operators that waited for it, up to one that waits for another. The number of those that
    // wait still; 0 where the tree is whole.
    pub fn finish(&mut self, l: usize, height: usize) -> Result<usize, Refusal>
        requires some { Some l self.old.work.now height self.old.patches }
        requires l_in_bounds { (8 * l ≤ length self.old.out.now) × (l < 2 ^ 32) }
        ensures finish_ok { FinishOk l height (emission self.old) result (emission self.new) }
        ensures kept { Kept (emission self.old) (emission self.new) }
        ensures same_from { SameFrom (8 * l) self.old.out.now self.new.out.now }
        ensures same_from_2 { SameFrom (l + 3 * height) self.old.work.now self.new.work.now }
    {
        let mut n = height;
        // A while: an operator that waits for another operand ends it.
        while 0 < n {
            let op = self.work[l + 3 * (n - 1)];
            match self.close(l, n - 1, op)? {
                Closed::Up => n -= 1,
                Closed::Stay => return Ok(n),
            }
        }
        Ok(0)
    }
}
