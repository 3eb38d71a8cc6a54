//! What the compiler of a checked module rests on: laws of the definitions.

ghost use Rattle.ob_compile.specs.Compilable.{EachCheckedIsCompilable, EachLoadStaysSolid};

/// Where the types that the loaded modules export have cells and the variables fewer than 2^31, a module that the static rules give
/// can be compiled: each of its imports is loaded and has its face, the tree is well formed over what is known of them, what its
/// own interface says is so of it, and what it exports is so too.
pub fn checked_law()
    ensures { EachCheckedIsCompilable }
{}

/// Where all that the loaded modules export is solid, it stays so after one more is loaded whose exports are.
pub fn load_law()
    ensures { EachLoadStaysSolid }
{}
