//! The law that environments agree with declarations. The function does nothing; its contract is
//! the law.

ghost use Rattle.ob0_language_types.specs.Bodies.{BindingsMatchDeclarations};

/// Proves that environments agree with declarations in a well-typed module. If the environment in
/// which a block's statements are checked binds an ordinal to an object, `declared_object` returns
/// the same object for this ordinal. An ordinal is the number of a declaration in text order.
pub fn bindings_match_declarations()
    ensures { BindingsMatchDeclarations }
{}
