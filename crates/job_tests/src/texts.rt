//! Source texts of the tests, and what they show.

/// Nothing is declared, and nothing shown.
pub(crate) const EMPTY: &str = "procedure Main is begin null; end Main;";

/// Two objects of a block, of types whose Finalize prints; the second type's Initialize prints too.
pub(crate) const TWO_OBJECTS: &str =
    "with Ada.Finalization; use Ada.Finalization; with Ada.Text_IO; use Ada.Text_IO; procedure Main is type A is new Controlled with null record; type B is new Controlled with null record; overriding procedure Finalize (X : in out A); overriding procedure Initialize (X : in out B); overriding procedure Finalize (X : in out B); procedure Finalize (X : in out A) is begin Put_Line (\"a\"); end Finalize; procedure Initialize (X : in out B) is begin Put_Line (\"i\"); end Initialize; procedure Finalize (X : in out B) is begin Put_Line (\"b\"); end Finalize; begin declare V : A; W : B; begin Put_Line (\"in\"); end; Put_Line (\"out\"); end Main;";

/// What it prints.
pub(crate) const TWO_OBJECTS_OUTPUT: &str = "i\nin\nb\na\nout\n";

/// Its trace.
pub(crate) const TWO_OBJECTS_TRACE: &str =
    "live 1 m2\ninitialize 2\nprint i\nnewline\nlive 2 m2\nprint in\nnewline\nfinalize 2 scope\nprint b\nnewline\nfinalize 1 scope\nprint a\nnewline\nprint out\nnewline\nend done\n";
