//! Operators on values, and the words of types.

ghost use Rattle.std.specs.Prelude.{◌≡◌, true, false, Some, IfOk, IfErr, IfSome, MatchResult};
ghost use Rattle.dfi_base.specs.Words.{word_neg, word_com, word_not};
ghost use Rattle.obj_mem.specs.Values.{on_word, on_words, truth_of};
ghost use Rattle.c_typed.specs.Types.{words_of, times, item_words, base_words};
ghost use Rattle.c_typed.specs.IsWell.{sizes_in};
ghost use Rattle.src_law.specs.Acts.{a_value, a_truth};
ghost use Rattle.src_law.specs.Operators as spec;
ghost use Rattle.src_law.specs.Exprs.{object_of};
ghost use Rattle.src_meaning.specs.declared.heard.Pause.{Pause};
ghost use Rattle.src_meaning.specs.tools.Levels.{ReadsIn};

use crate::heard::{Hearing, Pause};
use crate::level::Level;
use c_ast::{AssignOp, BinaryOp};
use c_typed::{BaseType, ExprType, ObjectType, PrefixOp, Struct};
use obj_mem::{Event, Value};

// Words of types. Those of a typed program are never too many for a `u32`; want of memory stands for it.

fn times(lengths: &[u32], words: u32) -> Option<u32>
    ensures { IfSome result (λ n. n ≡ times lengths.now words) }
{
    match lengths {
        [] => Some(words),
        [length, rest @ ..] => length.checked_mul(times(rest, words)?),
    }
}

fn base_words(structs: &[Struct], base: BaseType) -> u32
    ensures { result ≡ base_words (sizes_in structs.now) base }
{
    match base {
        BaseType::Int => 1,
        BaseType::Struct(k) => match structs.get(k as usize) {
            None => 0,
            Some(found) => found.words,
        },
        BaseType::Unknown => 0,
    }
}

fn item_words(structs: &[Struct], base: BaseType, stars: u64) -> u32
    ensures { result ≡ item_words (sizes_in structs.now) base stars }
{
    if stars > 0 {
        1
    } else {
        base_words(structs, base)
    }
}

/// The words of a type.
pub(crate) fn words_of(structs: &[Struct], object: &ObjectType) -> Result<u32, Pause>
    ensures { MatchResult result (λ n. n ≡ words_of (sizes_in structs.now) object.now) (λ e. e ≡ Pause.Memory) }
{
    let item = item_words(structs, object.base, object.stars);
    match times(object.lengths.as_slice(), item) {
        None => Err(Pause::Memory),
        Some(words) => Ok(words),
    }
}

/// The words of what stands at a place or behind a pointer.
pub(crate) fn words_behind(structs: &[Struct], typing: &ExprType) -> Result<u32, Pause>
    ensures { MatchResult result (λ n. n ≡ words_of (sizes_in structs.now) (object_of typing.now)) (λ e. e ≡ Pause.Memory) }
{
    match typing {
        ExprType::Place(object) => words_of(structs, object),
        ExprType::Pointer(object) => words_of(structs, object),
        _ => Ok(1),
    }
}

pub(crate) fn number_of(truth: bool) -> Value
    ensures { result ≡ spec.number_of truth }
{
    Value::Int(i32::from(truth))
}

fn minus(value: Value) -> Option<Value>
    ensures { result ≡ on_word word_neg value }
{
    match value.word() {
        Some(word) => Some(Value::of_word(word.wrapping_neg())),
        None => None,
    }
}

fn complement(value: Value) -> Option<Value>
    ensures { result ≡ on_word word_com value }
{
    match value.word() {
        Some(word) => Some(Value::of_word(!word)),
        None => None,
    }
}

fn not(value: Value) -> Option<Value>
    ensures { result ≡ on_word word_not value }
{
    match value.word() {
        Some(word) => Some(Value::of_word(u32::from(word == 0))),
        None => None,
    }
}

// What an operator makes of two words.
fn word_op(op: BinaryOp, a: u32, b: u32) -> u32
    requires { spec.divides op ≡ true → b ≡ 0 → ⊥ }
    ensures { result ≡ spec.word_op op a b }
{
    let (x, y) = (a.cast_signed(), b.cast_signed());
    match op {
        BinaryOp::Or | BinaryOp::BitOr => a | b,
        BinaryOp::And | BinaryOp::BitAnd => a & b,
        BinaryOp::BitXor => a ^ b,
        BinaryOp::Equal => u32::from(a == b),
        BinaryOp::NotEqual => u32::from(a != b),
        BinaryOp::Less => u32::from(x < y),
        BinaryOp::Greater => u32::from(x > y),
        BinaryOp::LessEqual => u32::from(x <= y),
        BinaryOp::GreaterEqual => u32::from(x >= y),
        BinaryOp::ShiftLeft => a.wrapping_shl(b),
        BinaryOp::ShiftRight => x.wrapping_shr(b).cast_unsigned(),
        BinaryOp::Add => a.wrapping_add(b),
        BinaryOp::Sub => a.wrapping_sub(b),
        BinaryOp::Mul => a.wrapping_mul(b),
        BinaryOp::Div => x.wrapping_div(y).cast_unsigned(),
        BinaryOp::Rem => x.wrapping_rem(y).cast_unsigned(),
    }
}

// The same of two numbers, of which the second is not 0 where it divides.
fn on_words(op: BinaryOp, v: Value, w: Value) -> Option<Value>
    requires { spec.divides op ≡ true → truth_of w ≡ Some false → ⊥ }
    ensures { result ≡ on_words (spec.word_op op) v w }
{
    match (v.word(), w.word()) {
        (Some(a), Some(b)) => Some(Value::of_word(word_op(op, a, b))),
        _ => None,
    }
}

/// The operator of an assignment, none where it takes the new value.
fn operator(op: AssignOp) -> Option<BinaryOp>
    ensures { result ≡ spec.operator_of op }
{
    match op {
        AssignOp::Plain => None,
        AssignOp::Add => Some(BinaryOp::Add),
        AssignOp::Sub => Some(BinaryOp::Sub),
        AssignOp::Mul => Some(BinaryOp::Mul),
        AssignOp::Div => Some(BinaryOp::Div),
        AssignOp::Rem => Some(BinaryOp::Rem),
        AssignOp::BitAnd => Some(BinaryOp::BitAnd),
        AssignOp::BitOr => Some(BinaryOp::BitOr),
        AssignOp::BitXor => Some(BinaryOp::BitXor),
        AssignOp::ShiftLeft => Some(BinaryOp::ShiftLeft),
        AssignOp::ShiftRight => Some(BinaryOp::ShiftRight),
    }
}

impl<'a> Level<'a> {
    /// What has no meaning where it is none.
    pub(crate) fn needed(
        &self,
        found: Option<Value>,
        heard: &mut Hearing<'_>,
    ) -> Result<Value, Pause>
        ensures { ReadsIn self.now a_value (spec.needed found) heard.old result heard.new }
    {
        match found {
            Some(value) => Ok(value),
            None => heard.last(Event::Bad),
        }
    }

    fn as_number(
        &self,
        typing: &ExprType,
        value: Value,
        heard: &mut Hearing<'_>,
    ) -> Result<Value, Pause>
        ensures { ReadsIn self.now a_value (spec.as_number typing.now value) heard.old result heard.new }
    {
        match typing {
            ExprType::Int => Ok(value),
            _ => heard.value(Event::Same {
                p: value,
                q: Value::Null,
                ne: true,
            }),
        }
    }

    fn tested(&self, value: Value, heard: &mut Hearing<'_>) -> Result<bool, Pause>
        ensures { ReadsIn self.now a_truth (spec.tested (truth_of value)) heard.old result heard.new }
    {
        match value.truth() {
            Some(truth) => Ok(truth),
            None => heard.last(Event::Bad),
        }
    }

    /// A truth value: of a number by itself, of a pointer by comparing it with null.
    pub(crate) fn is_true(
        &self,
        typing: &ExprType,
        value: Value,
        heard: &mut Hearing<'_>,
    ) -> Result<bool, Pause>
        ensures { ReadsIn self.now a_truth (spec.is_true typing.now value) heard.old result heard.new }
    {
        let number = self.as_number(typing, value, heard)?;
        self.tested(number, heard)
    }

    fn negated(
        &self,
        typing: &ExprType,
        value: Value,
        heard: &mut Hearing<'_>,
    ) -> Result<Value, Pause>
        ensures { ReadsIn self.now a_value (spec.negated typing.now value) heard.old result heard.new }
    {
        match typing {
            ExprType::Int => self.needed(not(value), heard),
            _ => heard.value(Event::Same {
                p: value,
                q: Value::Null,
                ne: false,
            }),
        }
    }

    /// An operator before its operand.
    pub(crate) fn prefixed(
        &self,
        op: PrefixOp,
        typing: &ExprType,
        value: Value,
        heard: &mut Hearing<'_>,
    ) -> Result<Value, Pause>
        ensures { ReadsIn self.now a_value (spec.prefixed op typing.now value) heard.old result heard.new }
    {
        match op {
            PrefixOp::Minus => self.needed(minus(value), heard),
            PrefixOp::Complement => self.needed(complement(value), heard),
            PrefixOp::Not => self.negated(typing, value, heard),
        }
    }

    fn divided(
        &self,
        op: BinaryOp,
        v: Value,
        w: Value,
        heard: &mut Hearing<'_>,
    ) -> Result<Value, Pause>
        ensures { ReadsIn self.now a_value (spec.divided (spec.word_op op) v w) heard.old result heard.new }
    {
        match w.truth() {
            Some(false) => heard.last(Event::Zero),
            _ => self.needed(on_words(op, v, w), heard),
        }
    }

    /// A pointer moved by items of the type behind it.
    pub(crate) fn moved_by(
        &self,
        object: &ObjectType,
        pointer: Value,
        items: Value,
        heard: &mut Hearing<'_>,
    ) -> Result<Value, Pause>
        ensures { ReadsIn self.now a_value (spec.moved_by (sizes_in self.now.program.structs.now) object.now pointer items) heard.old result heard.new }
    {
        let words = words_of(self.program.structs, object)?;
        self.needed(pointer.moved(items, words), heard)
    }

    fn added(
        &self,
        first: &ExprType,
        second: &ExprType,
        v: Value,
        w: Value,
        heard: &mut Hearing<'_>,
    ) -> Result<Value, Pause>
        ensures { ReadsIn self.now a_value (spec.added (sizes_in self.now.program.structs.now) first.now second.now v w) heard.old result heard.new }
    {
        match (first, second) {
            (ExprType::Pointer(object), _) => self.moved_by(object, v, w, heard),
            (_, ExprType::Pointer(object)) => self.moved_by(object, w, v, heard),
            _ => self.needed(on_words(BinaryOp::Add, v, w), heard),
        }
    }

    fn subtracted(
        &self,
        typing: &ExprType,
        v: Value,
        w: Value,
        heard: &mut Hearing<'_>,
    ) -> Result<Value, Pause>
        ensures { ReadsIn self.now a_value (spec.subtracted (sizes_in self.now.program.structs.now) typing.now v w) heard.old result heard.new }
    {
        match typing {
            ExprType::Pointer(object) => {
                let items = self.needed(minus(w), heard)?;
                self.moved_by(object, v, items, heard)
            }
            _ => self.needed(on_words(BinaryOp::Sub, v, w), heard),
        }
    }

    fn compared(
        &self,
        op: BinaryOp,
        ne: bool,
        typing: &ExprType,
        v: Value,
        w: Value,
        heard: &mut Hearing<'_>,
    ) -> Result<Value, Pause>
        requires { spec.divides op ≡ false }
        ensures { ReadsIn self.now a_value (spec.equated ne (spec.word_op op) typing.now v w) heard.old result heard.new }
    {
        match typing {
            ExprType::Int => self.needed(on_words(op, v, w), heard),
            _ => heard.value(Event::Same { p: v, q: w, ne }),
        }
    }

    /// An operator that evaluates both operands, of these types.
    pub(crate) fn operated(
        &self,
        op: BinaryOp,
        first: &ExprType,
        second: &ExprType,
        v: Value,
        w: Value,
        heard: &mut Hearing<'_>,
    ) -> Result<Value, Pause>
        ensures { ReadsIn self.now a_value (spec.operated (sizes_in self.now.program.structs.now) op first.now second.now v w) heard.old result heard.new }
    {
        match op {
            BinaryOp::Equal => self.compared(op, false, first, v, w, heard),
            BinaryOp::NotEqual => self.compared(op, true, first, v, w, heard),
            BinaryOp::Add => self.added(first, second, v, w, heard),
            BinaryOp::Sub => self.subtracted(first, v, w, heard),
            BinaryOp::Div | BinaryOp::Rem => self.divided(op, v, w, heard),
            _ => self.needed(on_words(op, v, w), heard),
        }
    }

    /// What an assignment writes, by the type of what is assigned.
    pub(crate) fn updated(
        &self,
        op: AssignOp,
        typing: &ExprType,
        old: Value,
        value: Value,
        heard: &mut Hearing<'_>,
    ) -> Result<Value, Pause>
        ensures { ReadsIn self.now a_value (spec.updated (sizes_in self.now.program.structs.now) op typing.now old value) heard.old result heard.new }
    {
        match operator(op) {
            None => Ok(value),
            Some(op) => self.operated(op, typing, &ExprType::Int, old, value, heard),
        }
    }
}
