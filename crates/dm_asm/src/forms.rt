//! Instructions, calls with operands and directives by their words.
ghost use Rattle.std.specs.Prelude.{◌≡◌, option_map};
ghost use Rattle.std.specs.List.{find};
ghost use Rattle.std.specs.Str.{bytes_eq};
ghost use Rattle.dm_asm.specs.Calls.{call_word, call_words};
ghost use Rattle.dm_processor.specs.Opcodes.{opcode_word, opcodes};
ghost use Rattle.dm_asm.specs.Forms.{calling_or, form_of, operand_count, shape_of};
ghost use Rattle.dm_asm.specs.declared.forms.Form.TheVariants.{Instruction};

use crate::calls::CallWord;
use dm_processor::Opcode;

/// An instruction, a call with operands, or a directive.
#[derive(Clone, Copy)]
pub enum Form {
    /// An instruction.
    Instruction(Opcode),
    /// A call with operands.
    Calling(CallWord),
    /// `.word`: one word.
    Word,
    /// `.byte`: bytes.
    Byte,
    /// `.zero`: zeros.
    Zero,
    /// `.align`: zeros up to a multiple of a number.
    Align,
    /// `.ascii`: a text.
    Ascii,
    /// `.equ`: a label's value.
    Equ,
}

/// What the operands of an instruction are.
#[derive(Clone, Copy)]
pub enum Shape {
    /// A register, and a number up to 65,535 or a label.
    RegisterValue,
    /// Two registers.
    TwoRegisters,
    /// Three registers.
    ThreeRegisters,
    /// Two registers, and a number up to 255.
    Access,
    /// A number up to 65,535, or a label.
    Jump,
    /// Two registers, and a label that isn't far.
    Branch,
    /// A call, by its number or its name.
    Call,
}

/// Every instruction, in order of the numbers.
const OPCODES: [Opcode; 20] = [
    Opcode::Li,
    Opcode::Lih,
    Opcode::Mov,
    Opcode::Add,
    Opcode::Sub,
    Opcode::Mul,
    Opcode::And,
    Opcode::Or,
    Opcode::Xor,
    Opcode::Shl,
    Opcode::Shr,
    Opcode::Lw,
    Opcode::Sw,
    Opcode::Lb,
    Opcode::Sb,
    Opcode::Jmp,
    Opcode::Beq,
    Opcode::Bne,
    Opcode::Bltu,
    Opcode::Sys,
];

/// The word of an instruction.
fn word_of(op: Opcode) -> &'static [u8]
    ensures { result.now ≡ opcode_word op }
{
    match op {
        Opcode::Li => b"li",
        Opcode::Lih => b"lih",
        Opcode::Mov => b"mov",
        Opcode::Add => b"add",
        Opcode::Sub => b"sub",
        Opcode::Mul => b"mul",
        Opcode::And => b"and",
        Opcode::Or => b"or",
        Opcode::Xor => b"xor",
        Opcode::Shl => b"shl",
        Opcode::Shr => b"shr",
        Opcode::Lw => b"lw",
        Opcode::Sw => b"sw",
        Opcode::Lb => b"lb",
        Opcode::Sb => b"sb",
        Opcode::Jmp => b"jmp",
        Opcode::Beq => b"beq",
        Opcode::Bne => b"bne",
        Opcode::Bltu => b"bltu",
        Opcode::Sys => b"sys",
    }
}

/// The instruction that a word names.
fn opcode_named(word: &[u8]) -> Option<Opcode>
    ensures { result ≡ find (λ op. bytes_eq word.now (opcode_word op)) opcodes }
{
    OPCODES.iter().copied().find(|op| word == word_of(*op))
}

/// The instruction or call with operands that a word names.
fn form_named(word: &[u8]) -> Option<Form>
    ensures { result ≡ calling_or (find (λ c. bytes_eq word.now (call_word c)) call_words) (option_map Instruction (find (λ op. bytes_eq word.now (opcode_word op)) opcodes)) }
{
    match CallWord::from_word(word) {
        Some(call) => Some(Form::Calling(call)),
        None => opcode_named(word).map(Form::Instruction),
    }
}

impl Form {
    /// The instruction, call with operands or directive that a word names.
    #[tactic(auto, unfolding(crate::specs::Forms::form_of))]
    pub fn from_word(word: &[u8]) -> Option<Form>
        ensures { result ≡ form_of word.now }
    {
        if word == b".word".as_slice() {
            Some(Form::Word)
        } else if word == b".byte".as_slice() {
            Some(Form::Byte)
        } else if word == b".zero".as_slice() {
            Some(Form::Zero)
        } else if word == b".align".as_slice() {
            Some(Form::Align)
        } else if word == b".ascii".as_slice() {
            Some(Form::Ascii)
        } else if word == b".equ".as_slice() {
            Some(Form::Equ)
        } else {
            form_named(word)
        }
    }
}

impl Shape {
    /// What the operands of an instruction are.
    pub fn of(op: Opcode) -> Shape
        ensures { result ≡ shape_of op }
    {
        match op {
            Opcode::Li | Opcode::Lih => Shape::RegisterValue,
            Opcode::Mov => Shape::TwoRegisters,
            Opcode::Add
            | Opcode::Sub
            | Opcode::Mul
            | Opcode::And
            | Opcode::Or
            | Opcode::Xor
            | Opcode::Shl
            | Opcode::Shr => Shape::ThreeRegisters,
            Opcode::Lw | Opcode::Sw | Opcode::Lb | Opcode::Sb => Shape::Access,
            Opcode::Jmp => Shape::Jump,
            Opcode::Beq | Opcode::Bne | Opcode::Bltu => Shape::Branch,
            Opcode::Sys => Shape::Call,
        }
    }

    /// How many operands there are: 1 to 3.
    pub fn operands(self) -> usize
        ensures { result ≡ operand_count self }
    {
        match self {
            Shape::Jump | Shape::Call => 1,
            Shape::RegisterValue | Shape::TwoRegisters => 2,
            Shape::ThreeRegisters | Shape::Access | Shape::Branch => 3,
        }
    }
}
