//! The procedures that are built in.
ghost use Rattle.std.specs.Prelude.{◌≡◌, IsTrue};
ghost use Rattle.pl_atoms.specs.CaseTable.{cases_of, ascends};
ghost use Rattle.unit_model.specs.Builtins.{builtins};

use pl_atoms::CaseRow;

// Rows of a table of cases, each a name, a number of arguments and a value.
macro_rules! rows {
    ($(($name:literal, $arity:literal, $value:literal),)*) => {
        [$(CaseRow { name: $name, arity: $arity, value: $value }),*]
    };
}

// Each built-in procedure: name, number of arguments, and the number of its row.
const BUILTINS: [CaseRow; 62] = rows![
    (b"!", 0, 0),
    (b",", 2, 1),
    (b"->", 2, 2),
    (b":", 2, 3),
    (b";", 2, 4),
    (b"<", 2, 5),
    (b"=", 2, 6),
    (b"=..", 2, 7),
    (b"=:=", 2, 8),
    (b"=<", 2, 9),
    (b"==", 2, 10),
    (b"=\\=", 2, 11),
    (b">", 2, 12),
    (b">=", 2, 13),
    (b"@", 2, 14),
    (b"@<", 2, 15),
    (b"@=<", 2, 16),
    (b"@>", 2, 17),
    (b"@>=", 2, 18),
    (b"\\+", 1, 19),
    (b"\\=", 2, 20),
    (b"\\==", 2, 21),
    (b"arg", 3, 22),
    (b"atom", 1, 23),
    (b"atomic", 1, 24),
    (b"call", 1, 25),
    (b"call", 2, 26),
    (b"call", 3, 27),
    (b"call", 4, 28),
    (b"call", 5, 29),
    (b"call", 6, 30),
    (b"call", 7, 31),
    (b"call", 8, 32),
    (b"callable", 1, 33),
    (b"calling_context", 1, 34),
    (b"catch", 3, 35),
    (b"compare", 3, 36),
    (b"compound", 1, 37),
    (b"copy_term", 2, 38),
    (b"fail", 0, 39),
    (b"false", 0, 40),
    (b"findall", 3, 41),
    (b"float", 1, 42),
    (b"functor", 3, 43),
    (b"ground", 1, 44),
    (b"halt", 0, 45),
    (b"halt", 1, 46),
    (b"integer", 1, 47),
    (b"is", 2, 48),
    (b"nl", 0, 49),
    (b"nonvar", 1, 50),
    (b"number", 1, 51),
    (b"once", 1, 52),
    (b"put_char", 1, 53),
    (b"repeat", 0, 54),
    (b"term_variables", 2, 55),
    (b"throw", 1, 56),
    (b"true", 0, 57),
    (b"unify_with_occurs_check", 2, 58),
    (b"var", 1, 59),
    (b"write", 1, 60),
    (b"writeq", 1, 61),
];

/// The built-in procedures, in ascending order of name and number of arguments; the value of a row is its number.
pub fn builtins() -> &'static [CaseRow]
    ensures rows { cases_of result.now ≡ builtins }
    ensures ascend { IsTrue (ascends (cases_of result.now)) }
{
    &BUILTINS
}
