//! The instructions of the machine, and what they name.

use ob_base::{Boxed, Items, SharedItems, Text};
use ob_mean::{Adjustment, Callee, Operator, Relation, TrapKind, TypeName, UnaryOperator};

/// Cells of a module or of a call: so many from this one on.
#[derive(Clone, Copy, PartialEq, Eq, Debug)]
pub struct Extent {
    pub from: usize,
    pub cells: usize,
}

/// An object, in which a cell has its number from 0 on.
#[derive(Clone, Copy, PartialEq, Eq, Debug)]
pub enum Root {
    /// Cells of the running module.
    OfModule(Extent),
    /// The import's number, and cells of that module.
    OfImport(usize, Extent),
    /// Cells of the running call.
    OfCall(Extent),
    /// What the running call's name of this number stands for.
    Named(usize),
}

/// How many elements an array has.
#[derive(Clone, Copy, PartialEq, Eq, Debug)]
pub enum Length {
    Elements(usize),
    /// As many as the running call's name of this number says.
    OfName(usize),
}

/// An array of characters within an object. It begins at the cell whose number is an operand.
#[derive(Clone, Copy, PartialEq, Eq, Debug)]
pub struct Span {
    pub root: Root,
    pub length: Length,
}

/// What a reader of In sets.
#[derive(Clone, Copy, PartialEq, Eq, Debug)]
pub enum Target {
    Char(Root),
    Int(Root),
    String(Span),
    Name(Span),
}

/// One instruction. Operands are numbers of 32 bits. A place is an operand too: the number of its cell in an object that the
/// instruction names. In valid code the cells lie in that object, so a machine need not test a place. A jump says how many
/// instructions it passes. Only `EnterBack` and `TakeLine` lead back, after a turn.
///
/// What few instructions have stands apart, so that the others take little room.
#[derive(Drop)]
pub enum Instr {
    Push(i32),
    /// Takes an operand off.
    Drop,
    /// In.Done.
    PushDone,
    /// The operator, and the line that its trap names.
    Unary(UnaryOperator, usize),
    Operate(Operator, usize),

    /// The first cell of an object.
    Load(Root),
    Store(Root),
    /// A cell of an object, by its number there.
    LoadAt(Root),
    /// Takes a number, and then the cell that gets it.
    StoreAt(Root),
    AdjustAt(Adjustment, Boxed<Root>),
    /// A part of a record: so many cells on.
    AddOffset(usize),
    /// Takes an index, and then the number of an array's first cell: the array's length, the cells of an element, and the
    /// line that the trap names.
    Index(Length, usize, usize),
    /// In place of an array's first cell, its length.
    TakeLength(Length),
    /// Takes the first cell of the source, and then of the target, of so many cells.
    Copy(Boxed<Root>, Boxed<Root>, usize),
    /// Takes the first cell of an array of characters, which gets this text; the line that the trap names.
    StoreText(Boxed<Span>, Boxed<Text>, usize),
    /// Takes the first cells of the second and of the first array.
    RelateTexts(Relation, Boxed<Span>, Boxed<Span>),

    /// A name for so many cells from this cell of an object on.
    NamePlace(Boxed<Root>, usize),
    /// A name for an array, whose elements have so many cells.
    NameArray(Boxed<Root>, Length, usize),
    /// A name for a record from this cell of an object on, which tells the record's type: the name of that type first, then
    /// that of its base, and so on. The record takes the cells of the first, and the parameter counts on so many of them.
    NameRecord(Boxed<Root>, SharedItems<TypeName>, usize),
    /// Takes the place of what the running call's name of this number stands for: the same name once more, with the type that
    /// it tells, for a parameter that counts on so many cells.
    NameAgain(usize, usize),

    /// Takes the place of what the name of this number stands for: whether it is of this record type, or of one that extends
    /// it.
    Test(usize, SharedItems<TypeName>),
    /// The place of what the name of this number stands for stays. Unless that is of this record type, or of one that extends
    /// it, a trap, which names this line.
    Guard(usize, SharedItems<TypeName>, TrapKind, usize),

    Skip(usize),
    SkipIfZero(usize),
    /// Where the number on top, which stays there, is from the first to the last.
    SkipIfWithin(i32, i32, usize),
    /// A loop's body begins here.
    Enter,
    /// Takes a number; unless it is 0, enters the body that begins so many places before.
    EnterBack(usize),
    Trap(TrapKind, usize),
    /// Takes a truth value; the line.
    Assert(usize),

    /// The procedure, and the line that its trap names.
    Invoke(Callee, usize),

    OpenInput,
    /// Before a reader: a call of In.
    CallInput,
    /// Takes the cell that is set, and passes the next two places, where the buffer had what is wanted or can't have it.
    Read(Boxed<Target>),
    /// A line is asked for.
    AskLine,
    /// The line that was given; then `Read` again, two places before.
    TakeLine,
    OpenOutput,
    PutChar,
    PutText(Boxed<Span>),
    /// Takes a width, and then the number that is written in a field of that width.
    PutInt,
    PutLine,
}

/// An instruction, and how many operands and how many names of its procedure's making lie there before it.
#[derive(Drop)]
pub struct Line {
    pub operands: usize,
    pub names: usize,
    pub instr: Instr,
}

/// What a name stands for.
#[derive(Clone, Copy, PartialEq, Eq, Debug)]
pub enum NameKind {
    /// So many cells.
    Cells(usize),
    /// An array, whose elements have so many cells. How many elements there are the name says.
    ArrayOf(usize),
    /// A record of at least so many cells, whose type the name tells.
    RecordOf(usize),
}

/// What a call takes and leaves: operands and names for its parameters, what each of these names stands for, and whether it
/// leaves a number.
#[derive(Drop)]
pub struct Entry {
    pub operands: usize,
    pub names: usize,
    pub kinds: Items<NameKind>,
    pub is_function: bool,
}

/// How many operands and how many names lie at a place of a procedure.
#[derive(Clone, Copy, PartialEq, Eq, Debug)]
pub struct Height {
    pub operands: usize,
    pub names: usize,
}

/// A procedure. At the end of its lines it returns. It never has more operands and names, beside those of its parameters,
/// than there is room for.
#[derive(Drop)]
pub struct Procedure {
    pub entry: Entry,
    /// Those of its parameters come first.
    pub cells: usize,
    pub operand_room: usize,
    pub name_room: usize,
    pub lines: Vec<Line>,
}

/// What code knows of a module that is imported: that it has at least so many cells, and what its exported procedures take
/// and leave.
#[derive(Drop)]
pub struct Entries {
    pub cells: usize,
    pub exported: Vec<Entry>,
}

/// The code of a module. Its body is the last procedure: it takes and leaves nothing, and has no cells.
#[derive(Drop)]
pub struct CodeModule {
    pub cells: usize,
    pub procedures: Vec<Procedure>,
    /// The numbers of the exported procedures.
    pub exported: Vec<usize>,
    pub imports: Vec<Entries>,
}

/// The line that told the type of a record: its module, its procedure, and its place there.
#[derive(Clone, Copy, PartialEq, Eq, Debug)]
pub struct Told {
    pub home: usize,
    pub procedure: usize,
    pub place: usize,
}

/// A name: what a VAR or structured parameter stands for. Of an open array also its length, and of a record the line that told
/// its type.
#[derive(Clone, Copy, PartialEq, Eq, Debug)]
pub struct Name {
    pub address: usize,
    pub cells: usize,
    pub length: usize,
    pub told: Told,
}

/// Where a run is: a module, a procedure, a line of it, and where its cells and its names begin.
#[derive(Clone, Copy, PartialEq, Eq, Debug)]
pub struct Frame {
    pub home: usize,
    pub procedure: usize,
    pub place: usize,
    pub cells: usize,
    pub names: usize,
}

/// A module among those that are loaded: its code, the numbers of the modules that it imports, and its first cell.
#[derive(Drop)]
pub struct LinkedModule {
    pub code: CodeModule,
    pub imports: Vec<usize>,
    pub cells: usize,
}
