//! Laws of the tree and of the grammar. They have no code to run.
//!
//! The grammar defines which tokens spell which definition, as in the ISLE reference:
//!
//! - `(type I MOD.. VALUE)`, the modifiers `extern` and `nodebug` in any order and repeated;
//! - `(rule I N P CONDITION.. X)`: the name I and the priority N are optional, and a condition is
//!   `(if-let P X)` or `(if X)`, whose pattern is a wildcard;
//! - `(extractor (I I..) P)`: the term with its parameters, and the pattern that defines it;
//! - `(decl I (I..) I)` with the flags `pure`, `multi`, `partial` and `rec` in this order after
//!   `decl`;
//! - `(attr I KIND..)` of a term, `(attr rule I KIND..)` of a rule;
//! - `(spec (I I..) CLAUSE..)`, the clauses `(provide E..)`, `(require E..)`, `(match E..)` and
//!   `(modifies I [I])` in any order and repeated;
//! - `(macro (I I..) E)`;
//! - `(model I (type MODEL))` or `(model I (const E))`, `(form I SIGNATURE..)`;
//! - `(state I (type MODEL) (default E))`;
//! - `(instantiate I SIGNATURE ..)` and `(instantiate I I (tag I)..)`;
//! - `(extern constructor I I)`, `(extern extractor I I)` with or without `infallible`, and
//!   `(extern const $I I)`, where the name after the `$` may be empty;
//! - `(convert I I I)`: the inner type, the outer type, the term.
//!
//! A pattern P is a variable, `I @ P`, `true` or `false`, an integer, a constant, `(I P..)`, `_` or
//! `(and P..)`. An expression X is `(I X..)`, a variable, `true` or `false`, an integer, a constant
//! or `(let ((I I X)..) X)`, where each variable has a type and a value. A constant is a `$` and
//! its name, which may be empty. Integers are signed, of 128 bits, and priorities are signed, of 64
//! bits. Macro arguments have no syntax.
//!
//! A spec expression E is one of these:
//!
//! - an integer, a bit vector, `true` or `false`, or a variable;
//! - `(as E MODEL)`, `(:I E)`, `(I? E)`, `(OPERATOR E..)` or `(switch E (E E)..)`;
//! - `(match E ((I I..) E)..)`, `(let ((I E)..) E)`, `(with (I..) E)` or `(macro (I..) E)`;
//! - `(I! E..)`, `(I.I E..)` or `(struct (I E)..)`.
//!
//! A bit vector is `#b` and binary digits, or `#x` and hexadecimal ones, below 2^128. In
//! `(I.I E..)` the first name has no dot, and the two together are no operator.
//!
//! A name must not be mistaken for a word of the syntax:
//!
//! - a term of a declaration can be named like a flag only if that flag, or a later one, is set;
//! - a term of an attribute is not named `rule`;
//! - an extracted term is named `infallible` only if that flag is set;
//! - a variable is not `true` or `false`, does not begin with `$`, and in a pattern is not `_`;
//! - the term of a pattern is not named `and`, and that of an expression is not named `let`;
//! - the pattern of a rule without a name and a priority is a term or an `and`;
//! - the pattern of a rule without a priority is not an integer;
//! - the expression of a rule is not a term named `if`.

ghost use Rattle.std.specs.Prelude.{◌≡◌, ◌↔◌, ℕ, List, IsTrue, false};
ghost use Rattle.isle_base_source.specs.declared.pos.Pos.{Pos};
ghost use Rattle.isle_base.specs.Place.{Placed, nowhere};
ghost use Rattle.isle_base.specs.Token.{Feed};
ghost use Rattle.isle_ast_names.specs.Parts.{AreParts, IsByParts};
ghost use Rattle.isle_ast_names.specs.Tree.{Name};
ghost use Rattle.isle_ast_names.specs.Words.{SpellsAll, SpellsName};
ghost use Rattle.isle_ast_verification.specs.SpecDefinitionGrammar.{SpellsSpecDefinition};
ghost use Rattle.isle_ast_verification.specs.SpecDefinitionGrammar.{SpellsSpecMacro};
ghost use Rattle.isle_ast_verification.specs.SpecDefinitionGrammar.{SpellsState};
ghost use Rattle.isle_ast_verification.specs.SpecGrammar.{SpellsSpec};
ghost use Rattle.isle_ast_verification.specs.Tree.{SpecDefinition, SpecMacroDefinition, SpecNode};
ghost use Rattle.isle_ast_verification.specs.Tree.{StateDefinition, TypeModel};
ghost use Rattle.isle_ast_verification.specs.TreeView.{modified_of, single_arm_of};
ghost use Rattle.isle_ast_verification.specs.TreeView.{single_field_init_of};
ghost use Rattle.isle_ast_verification.specs.TreeView.{single_model_field_of, spec_definition_of};
ghost use Rattle.isle_ast_verification.specs.TreeView.{spec_macro_of, spec_of, state_of};
ghost use Rattle.isle_ast_verification.specs.TreeView.{type_model_of};
ghost use Rattle.isle_ast_verification.specs.TypeModelGrammar.{SpellsTypeModel};
ghost use Rattle.isle_ast_rules.specs.ExpressionGrammar.{SpellsExpression};
ghost use Rattle.isle_ast_rules.specs.PatternGrammar.{SpellsPattern};
ghost use Rattle.isle_ast_rules.specs.RuleGrammar.{SpellsCondition, SpellsExtractor, SpellsRule};
ghost use Rattle.isle_ast_rules.specs.Tree.{Condition, Expression, ExtractorDefinition};
ghost use Rattle.isle_ast_rules.specs.Tree.{PatternNode, RuleDefinition};
ghost use Rattle.isle_ast_rules.specs.TreeView.{condition_of, expression_of, extractor_of};
ghost use Rattle.isle_ast_rules.specs.TreeView.{pattern_of, rule_of, single_let_of};
ghost use Rattle.isle_ast.specs.Erased.{erase};
ghost use Rattle.isle_ast.specs.Grammar.{SpellsDefinition, SpellsDefinitions};
ghost use Rattle.isle_ast.specs.MacroArgs.{definitions_have_macro_arg};
ghost use Rattle.isle_ast.specs.ModelGrammar.{SpellsForm, SpellsInstantiation, SpellsModel};
ghost use Rattle.isle_ast.specs.Spelt.{IsSpelt, Spells, WasSpelt};
ghost use Rattle.isle_ast.specs.TermGrammar.{SpellsAttribute, SpellsConversion, SpellsDeclaration};
ghost use Rattle.isle_ast.specs.TermGrammar.{SpellsExtern};
ghost use Rattle.isle_ast.specs.Tree.{Attribute, Conversion, Declaration, Definition};
ghost use Rattle.isle_ast.specs.Tree.{ExternDefinition, FormDefinition, ModelDefinition};
ghost use Rattle.isle_ast.specs.Tree.{TermInstantiation, TypeDefinition};
ghost use Rattle.isle_ast.specs.TreeView.{attribute_of, conversion_of, declaration_of};
ghost use Rattle.isle_ast.specs.TreeView.{definition_of, extern_of, fields_of, form_of};
ghost use Rattle.isle_ast.specs.TreeView.{indexed_field_of, instantiation_of, kind_of};
ghost use Rattle.isle_ast.specs.TreeView.{model_content_of, model_definition_of, named_field_of};
ghost use Rattle.isle_ast.specs.TreeView.{signature_of, struct_fields_of, target_of};
ghost use Rattle.isle_ast.specs.TreeView.{tuple_fields_of, type_content_of, type_definition_of};
ghost use Rattle.isle_ast.specs.TreeView.{variant_of};
ghost use Rattle.isle_ast.specs.TypeGrammar.{SpellsTypeDefinition};
ghost use Rattle.isle_ast.specs.Writable.{AreWritable};

use crate::ast::{
    Arm, Attr, AttrKind, AttrTarget, Converter, Decl, Def, Expr, Extern, Extractor, FieldInit,
    Fields, Form, IfLet, Instantiation, LetDef, Model, ModelField, ModelType, ModelValue, Modifies,
    Pattern, Rule, Signature, Spec, SpecExpr, SpecMacro, SpecOp, State, StructField, StructFields,
    TupleField, TupleFields, TypeDef, TypeValue, Variant,
};
pub use isle_ast_names::laws::{identifiers_are_ordered, identifiers_are_symbols};

/// The tokens that spell a node are a prefix of the list, and spell it before any other tokens too.
/// So the tokens that spell a list of definitions are divided into one part for each definition,
/// which spells that definition.
pub fn spellings_are_parts()
    ensures names { (name : Name) → IsByParts (SpellsName name) }
    ensures lists_of_names { (names : List Name) → IsByParts (SpellsAll SpellsName names) }
    ensures types { (t : TypeDefinition) → IsByParts (SpellsTypeDefinition t) }
    ensures declarations { (d : Declaration) → IsByParts (SpellsDeclaration d) }
    ensures attributes { (a : Attribute) → IsByParts (SpellsAttribute a) }
    ensures type_models { (t : TypeModel) → IsByParts (SpellsTypeModel t) }
    ensures models { (m : ModelDefinition) → IsByParts (SpellsModel m) }
    ensures forms { (f : FormDefinition) → IsByParts (SpellsForm f) }
    ensures instantiations { (i : TermInstantiation) → IsByParts (SpellsInstantiation i) }
    ensures patterns { (p : PatternNode) → IsByParts (SpellsPattern p) }
    ensures expressions { (x : Expression) → IsByParts (SpellsExpression x) }
    ensures conditions { (c : Condition) → IsByParts (SpellsCondition c) }
    ensures rules { (r : RuleDefinition) → IsByParts (SpellsRule r) }
    ensures extractors { (e : ExtractorDefinition) → IsByParts (SpellsExtractor e) }
    ensures specs { (x : SpecNode) → IsByParts (SpellsSpec x) }
    ensures spec_definitions { (s : SpecDefinition) → IsByParts (SpellsSpecDefinition s) }
    ensures spec_macros { (m : SpecMacroDefinition) → IsByParts (SpellsSpecMacro m) }
    ensures states { (s : StateDefinition) → IsByParts (SpellsState s) }
    ensures externs { (e : ExternDefinition) → IsByParts (SpellsExtern e) }
    ensures conversions { (c : Conversion) → IsByParts (SpellsConversion c) }
    ensures definitions { (d : Definition) → IsByParts (SpellsDefinition d) }
    ensures whole_texts { (ds : List Definition) (all : List Placed)
        → SpellsDefinitions ds all ↔ AreParts SpellsDefinition ds all }
{}

/// If a text spells a tree with positions, it spells the erased tree with the default position
/// everywhere, and conversely. So parsing without positions accepts the same texts as parsing with
/// them and returns the same tree, erased; and the tokens determine the positions.
pub fn spellings_are_erased()
    ensures erased { (place : ℕ → Pos) (text : Feed) (ds : List Definition)
        → Spells place text ds → Spells nowhere text (erase ds) }
    ensures placed { (place : ℕ → Pos) (text : Feed) (es : List Definition)
        → Spells nowhere text es → (ds : List Definition) × (erase ds ≡ es) × Spells place text ds }
    ensures once { (place : ℕ → Pos) (text : Feed) (ds es : List Definition)
        → Spells place text ds → Spells place text es → erase ds ≡ erase es → ds ≡ es }
{}

/// A tree that some tokens spell is writable: each node meets the conditions for being written as
/// text and read back. It contains no macro argument.
pub fn spelt_trees_are_writable()
    ensures writable { (ds : List Definition) (all : List Placed)
        → SpellsDefinitions ds all → AreWritable ds }
    ensures no_macro_args { (ds : List Definition) (all : List Placed)
        → SpellsDefinitions ds all → definitions_have_macro_arg ds ≡ false }
{}

/// If a text spelled a tree under upstream's rules, where a lone `-` is no symbol, it spells the
/// same tree under these.
pub fn upstream_texts_stay()
    ensures { (place : ℕ → Pos) (text : List ℕ) (ds : List Definition)
        → WasSpelt place text ds → IsSpelt place text ds }
{}

/// Positions play no part in writability: a tree is writable exactly if its erasure is.
pub fn erasing_keeps_writable()
    ensures { (ds : List Definition) → AreWritable (erase ds) ↔ AreWritable ds }
{}

/// Definitions and their parts are equal exactly if they are the same tree with the same positions.
pub fn definitions_are_compared()
    ensures type_defs { (a b : TypeDef)
        → IsTrue (⟦<TypeDef as PartialEq>⟧.eq a b) ↔ (type_definition_of a ≡ type_definition_of b) }
    ensures type_values { (a b : TypeValue)
        → IsTrue (⟦<TypeValue as PartialEq>⟧.eq a b) ↔ (type_content_of a ≡ type_content_of b) }
    ensures variants { (a b : Variant)
        → IsTrue (⟦<Variant as PartialEq>⟧.eq a b) ↔ (variant_of a ≡ variant_of b) }
    ensures fields { (a b : Fields)
        → IsTrue (⟦<Fields as PartialEq>⟧.eq a b) ↔ (fields_of a ≡ fields_of b) }
    ensures struct_fields { (a b : StructFields)
        → IsTrue (⟦<StructFields as PartialEq>⟧.eq a b)
        ↔ (struct_fields_of a ≡ struct_fields_of b) }
    ensures struct_field { (a b : StructField)
        → IsTrue (⟦<StructField as PartialEq>⟧.eq a b) ↔ (named_field_of a ≡ named_field_of b) }
    ensures tuple_fields { (a b : TupleFields)
        → IsTrue (⟦<TupleFields as PartialEq>⟧.eq a b) ↔ (tuple_fields_of a ≡ tuple_fields_of b) }
    ensures tuple_field { (a b : TupleField)
        → IsTrue (⟦<TupleField as PartialEq>⟧.eq a b) ↔ (indexed_field_of a ≡ indexed_field_of b) }
    ensures rules { (a b : Rule) → IsTrue (⟦<Rule as PartialEq>⟧.eq a b) ↔ (rule_of a ≡ rule_of b) }
    ensures if_lets { (a b : IfLet)
        → IsTrue (⟦<IfLet as PartialEq>⟧.eq a b) ↔ (condition_of a ≡ condition_of b) }
    ensures extractors { (a b : Extractor)
        → IsTrue (⟦<Extractor as PartialEq>⟧.eq a b) ↔ (extractor_of a ≡ extractor_of b) }
    ensures patterns { (a b : Pattern)
        → IsTrue (⟦<Pattern as PartialEq>⟧.eq a b) ↔ (pattern_of a ≡ pattern_of b) }
    ensures exprs { (a b : Expr)
        → IsTrue (⟦<Expr as PartialEq>⟧.eq a b) ↔ (expression_of a ≡ expression_of b) }
    ensures let_defs { (a b : LetDef)
        → IsTrue (⟦<LetDef as PartialEq>⟧.eq a b) ↔ (single_let_of a ≡ single_let_of b) }
    ensures specs { (a b : Spec)
        → IsTrue (⟦<Spec as PartialEq>⟧.eq a b) ↔ (spec_definition_of a ≡ spec_definition_of b) }
    ensures spec_exprs { (a b : SpecExpr)
        → IsTrue (⟦<SpecExpr as PartialEq>⟧.eq a b) ↔ (spec_of a ≡ spec_of b) }
    ensures spec_ops { (a b : SpecOp) → IsTrue (⟦<SpecOp as PartialEq>⟧.eq a b) ↔ (a ≡ b) }
    ensures arms { (a b : Arm)
        → IsTrue (⟦<Arm as PartialEq>⟧.eq a b) ↔ (single_arm_of a ≡ single_arm_of b) }
    ensures field_inits { (a b : FieldInit)
        → IsTrue (⟦<FieldInit as PartialEq>⟧.eq a b)
        ↔ (single_field_init_of a ≡ single_field_init_of b) }
    ensures modifies { (a b : Modifies)
        → IsTrue (⟦<Modifies as PartialEq>⟧.eq a b) ↔ (modified_of a ≡ modified_of b) }
    ensures spec_macros { (a b : SpecMacro)
        → IsTrue (⟦<SpecMacro as PartialEq>⟧.eq a b) ↔ (spec_macro_of a ≡ spec_macro_of b) }
    ensures states { (a b : State)
        → IsTrue (⟦<State as PartialEq>⟧.eq a b) ↔ (state_of a ≡ state_of b) }
    ensures decls { (a b : Decl)
        → IsTrue (⟦<Decl as PartialEq>⟧.eq a b) ↔ (declaration_of a ≡ declaration_of b) }
    ensures instantiations { (a b : Instantiation)
        → IsTrue (⟦<Instantiation as PartialEq>⟧.eq a b)
        ↔ (instantiation_of a ≡ instantiation_of b) }
    ensures attrs { (a b : Attr)
        → IsTrue (⟦<Attr as PartialEq>⟧.eq a b) ↔ (attribute_of a ≡ attribute_of b) }
    ensures attr_targets { (a b : AttrTarget)
        → IsTrue (⟦<AttrTarget as PartialEq>⟧.eq a b) ↔ (target_of a ≡ target_of b) }
    ensures attr_kinds { (a b : AttrKind)
        → IsTrue (⟦<AttrKind as PartialEq>⟧.eq a b) ↔ (kind_of a ≡ kind_of b) }
    ensures model_types { (a b : ModelType)
        → IsTrue (⟦<ModelType as PartialEq>⟧.eq a b) ↔ (type_model_of a ≡ type_model_of b) }
    ensures model_fields { (a b : ModelField)
        → IsTrue (⟦<ModelField as PartialEq>⟧.eq a b)
        ↔ (single_model_field_of a ≡ single_model_field_of b) }
    ensures model_values { (a b : ModelValue)
        → IsTrue (⟦<ModelValue as PartialEq>⟧.eq a b) ↔ (model_content_of a ≡ model_content_of b) }
    ensures models { (a b : Model)
        → IsTrue (⟦<Model as PartialEq>⟧.eq a b) ↔ (model_definition_of a ≡ model_definition_of b) }
    ensures signatures { (a b : Signature)
        → IsTrue (⟦<Signature as PartialEq>⟧.eq a b) ↔ (signature_of a ≡ signature_of b) }
    ensures forms { (a b : Form) → IsTrue (⟦<Form as PartialEq>⟧.eq a b) ↔ (form_of a ≡ form_of b) }
    ensures externs { (a b : Extern)
        → IsTrue (⟦<Extern as PartialEq>⟧.eq a b) ↔ (extern_of a ≡ extern_of b) }
    ensures converters { (a b : Converter)
        → IsTrue (⟦<Converter as PartialEq>⟧.eq a b) ↔ (conversion_of a ≡ conversion_of b) }
    ensures defs { (a b : Def)
        → IsTrue (⟦<Def as PartialEq>⟧.eq a b) ↔ (definition_of a ≡ definition_of b) }
{}
