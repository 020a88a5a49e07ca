//! Laws of the errors of a program, which run no code.

ghost use Rattle.std.specs.Prelude.{◌≡◌, ℕ, [], List, Ok};
ghost use Rattle.std.specs.List.{All};
ghost use Rattle.isle_ast.specs.Tree.{Definition};
ghost use Rattle.isle_check_declarations.specs.TermFaults.{term_faults};
ghost use Rattle.isle_check_declarations.specs.TypeFaults.{type_faults};
ghost use Rattle.isle_check_declarations.specs.naming.Converters.{converter_faults};
ghost use Rattle.isle_check_declarations.specs.naming.Externs.{extern_faults};
ghost use Rattle.isle_check_declarations.specs.naming.Extractors.{extractor_faults};
ghost use Rattle.isle_check_declarations.specs.naming.Roots.{root_faults};
ghost use Rattle.isle_check_environment.specs.signatures.Environment.{EnvironmentNode, environment};
ghost use Rattle.isle_check_recursion.specs.Recursion.{recursions};
ghost use Rattle.isle_check_rules.specs.RuleFaults.{rule_faults};
ghost use Rattle.isle_check_rules.specs.RuleTypes.{RulesTyping};
ghost use Rattle.isle_check_laws.specs.BrokenConverters.{IsBrokenConverter};
ghost use Rattle.isle_check_laws.specs.BrokenExterns.{IsBrokenExtern};
ghost use Rattle.isle_check_laws.specs.BrokenExtractors.{IsBrokenExtractor};
ghost use Rattle.isle_check_laws.specs.BrokenRecursions.{IsBrokenRecursion};
ghost use Rattle.isle_check_laws.specs.BrokenRoots.{IsBrokenRoot};
ghost use Rattle.isle_check_laws.specs.BrokenRules.{IsBrokenRule};
ghost use Rattle.isle_check_laws.specs.BrokenTerms.{IsBrokenTerm};
ghost use Rattle.isle_check_laws.specs.BrokenTypes.{IsBrokenType};
ghost use Rattle.isle_check_laws.specs.Environments.{IsTrueOf};

/// A law, which runs no code: each error of the types and the constants of a program names what is
/// wrong there.
pub fn errors_of_types_name_broken_types()
    ensures { (ds : List Definition)
        → All (λ f. IsBrokenType ds f.kind f.pos) (type_faults ds) }
{}

/// A law, which runs no code: each error of the declared terms of a program, and of its variants as
/// terms, names what is wrong there.
pub fn errors_of_terms_name_broken_terms()
    ensures { (ds : List Definition)
        → All (λ f. IsBrokenTerm ds f.kind f.pos) (term_faults ds) }
{}

/// A law, which runs no code: in a program whose terms are right, each error of the left sides of
/// its rules names what is wrong there.
pub fn errors_of_roots_name_broken_rules()
    ensures { (ds : List Definition) → term_faults ds ≡ []
        → All (λ f. IsBrokenRoot ds f.kind f.pos) (root_faults ds) }
{}

/// A law, which runs no code: in a program whose terms are right, each error of its internal
/// extractors names what is wrong there.
pub fn errors_of_extractors_name_broken_extractors()
    ensures { (ds : List Definition) → term_faults ds ≡ []
        → All (λ f. IsBrokenExtractor ds f.kind f.pos) (extractor_faults ds) }
{}

/// A law, which runs no code: each recursion that is told is one. Its terms have internal
/// extractors, each of which uses the next one, and the last one comes twice.
pub fn recursions_name_cycles_of_extractors()
    ensures { (ds : List Definition)
        → All (λ r. IsBrokenRecursion ds r.path r.pos) (recursions ds) }
{}

/// A law, which runs no code: in a program whose terms are right, each error of its converters
/// names what is wrong there.
pub fn errors_of_converters_name_broken_converters()
    ensures { (ds : List Definition) → term_faults ds ≡ []
        → All (λ f. IsBrokenConverter ds f.kind f.pos) (converter_faults ds) }
{}

/// A law, which runs no code: in a program whose terms are right, each error of its external
/// constructors and extractors names what is wrong there.
pub fn errors_of_externs_name_broken_externs()
    ensures { (ds : List Definition) → term_faults ds ≡ []
        → All (λ f. IsBrokenExtern ds f.kind f.pos) (extern_faults ds) }
{}

/// A law, which runs no code: each error of the rules of a program names what is wrong there.
pub fn errors_of_rules_name_broken_rules()
    ensures { (env : EnvironmentNode) (ds : List Definition) (depth : ℕ) (made : RulesTyping)
        → rule_faults depth env ds ≡ Ok made
        → All (λ f. IsBrokenRule env ds f.kind f.pos) made.faults }
{}

/// A law, which runs no code: what the environment of a program knows is in the program, and what
/// it does not know is not. So the errors of rules say what they say of the program's definitions.
pub fn environments_are_true_of_programs()
    ensures { (ds : List Definition) → IsTrueOf ds (environment ds) }
{}
