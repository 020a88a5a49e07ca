//! Replacing one name by another.

use isle_syntax::ast::{
    Arm, AttrTarget, Def, Expr, Extern, FieldInit, Fields, Ident, LetDef, ModelType, ModelValue,
    Pattern, Rule, Spec, SpecExpr, TypeDef, TypeValue,
};

/// A name, the one that replaces it, and whether there was memory to replace it.
#[derive(Drop)]
pub struct Renaming<'a> {
    pub from: &'a str,
    pub to: &'a str,
    pub is_whole: bool,
}

impl Renaming<'_> {
    fn name(&mut self, ident: &mut Ident) {
        if ident.0.as_str() == self.from {
            ident.0.clear();
            self.is_whole &= ident.0.push_str(self.to).is_ok();
        }
    }

    fn names(&mut self, idents: &mut [Ident]) {
        for ident in idents {
            self.name(ident);
        }
    }

    /// Renames those of the patterns that are variables.
    fn variables(&mut self, patterns: &mut [Pattern]) {
        for pattern in patterns {
            if let Pattern::Var { var, .. } = pattern {
                self.name(var);
            }
        }
    }

    fn pattern(&mut self, pattern: &mut Pattern) {
        match pattern {
            Pattern::Var { var: name, .. }
            | Pattern::BindPattern { var: name, .. }
            | Pattern::ConstPrim { val: name, .. } => self.name(name),
            Pattern::Term { sym, args, .. } => {
                self.name(sym);
                self.variables(args)
            }
            Pattern::And { subpats, .. } => self.variables(subpats),
            _ => {}
        }
    }

    /// Renames an expression that is a variable.
    fn variable(&mut self, expr: &mut Expr) {
        if let Expr::Var { name, .. } = expr {
            self.name(name);
        }
    }

    fn let_defs(&mut self, defs: &mut [LetDef]) {
        for def in defs {
            self.name(&mut def.var);
            self.name(&mut def.ty);
            self.variable(&mut def.val);
        }
    }

    fn expr(&mut self, expr: &mut Expr) {
        match expr {
            Expr::Var { name, .. }
            | Expr::ConstPrim { val: name, .. }
            | Expr::Term { sym: name, .. } => self.name(name),
            Expr::Let { defs, .. } => self.let_defs(defs),
            _ => {}
        }
    }

    fn rule(&mut self, rule: &mut Rule) {
        if let Some(name) = &mut rule.name {
            self.name(name);
        }
        for iflet in &mut rule.iflets {
            self.expr(&mut iflet.expr);
        }
        self.pattern(&mut rule.pattern);
        self.expr(&mut rule.expr);
    }

    /// Renames a spec expression that is a variable.
    fn spec_variable(&mut self, expr: &mut SpecExpr) {
        match expr {
            SpecExpr::Var { var, .. } => self.name(var),
            _ => {}
        }
    }

    fn spec_variables(&mut self, exprs: &mut [SpecExpr]) {
        for expr in exprs {
            self.spec_variable(expr);
        }
    }

    fn bindings(&mut self, bindings: &mut [(Ident, SpecExpr)]) {
        for binding in bindings {
            self.name(&mut binding.0);
            self.spec_variable(&mut binding.1);
        }
    }

    fn arms(&mut self, arms: &mut [Arm]) {
        for arm in arms {
            self.name(&mut arm.variant);
            self.names(&mut arm.args);
            self.spec_variable(&mut arm.body);
        }
    }

    fn inits(&mut self, fields: &mut [FieldInit]) {
        for field in fields {
            self.name(&mut field.name);
            self.spec_variable(&mut field.value);
        }
    }

    /// Renames a name, and a spec expression beside it.
    fn pair(&mut self, name: &mut Ident, x: &mut SpecExpr) {
        self.name(name);
        self.spec_variable(x);
    }

    /// Renames names, and the spec expression that they are in scope of.
    fn scope(&mut self, names: &mut [Ident], body: &mut SpecExpr) {
        self.names(names);
        self.spec_variable(body);
    }

    fn spec_expr(&mut self, expr: &mut SpecExpr) {
        match expr {
            SpecExpr::Var { var, .. } => self.name(var),
            SpecExpr::As { x, ty, .. } => {
                self.model_type(ty);
                self.spec_variable(x);
            }
            SpecExpr::Field { field, x, .. } => self.pair(field, x),
            SpecExpr::Discriminator { variant, x, .. } => self.pair(variant, x),
            SpecExpr::Expand { name, args, .. } => {
                self.name(name);
                self.spec_variables(args);
            }
            SpecExpr::With { decls, body, .. } => self.scope(decls, body),
            SpecExpr::Macro { params, body, .. } => self.scope(params, body),
            SpecExpr::Enum { name, variant, .. } => {
                self.name(name);
                self.name(variant);
            }
            SpecExpr::Let { defs, .. } => self.bindings(defs),
            SpecExpr::Match { arms, .. } => self.arms(arms),
            SpecExpr::Struct { fields, .. } => self.inits(fields),
            _ => {}
        }
    }

    fn spec(&mut self, spec: &mut Spec) {
        for modifies in &mut spec.modifies {
            if let Some(cond) = &mut modifies.cond {
                self.name(cond);
            }
        }
        self.spec_variables(&mut spec.provides);
    }

    /// Renames a model type that is a name.
    fn model_type(&mut self, ty: &mut ModelType) {
        if let ModelType::Named(name) = ty {
            self.name(name);
        }
    }

    fn model(&mut self, value: &mut ModelValue) {
        match value {
            ModelValue::ConstValue(expr) => self.spec_expr(expr),
            ModelValue::TypeValue(ModelType::Struct(fields)) => {
                for field in fields {
                    self.model_type(&mut field.ty);
                }
            }
            _ => {}
        }
    }

    fn type_def(&mut self, def: &mut TypeDef) {
        if let TypeValue::Struct(Fields::Struct(fields), _) = &mut def.ty {
            for field in &mut fields.fields {
                self.name(&mut field.name);
            }
        }
    }

    /// Renames a definition's name and those of its parts.
    pub fn definition(&mut self, def: &mut Def) {
        match def {
            Def::TypeDef(def) => self.type_def(def),
            Def::Rule(rule) => self.rule(rule),
            Def::Decl(decl) => self.name(&mut decl.term),
            Def::Attr(attr) => match &mut attr.target {
                AttrTarget::Term(name) | AttrTarget::Rule(name) => self.name(name),
            },
            Def::Spec(spec) => self.spec(spec),
            Def::SpecMacro(spec_macro) => {
                self.name(&mut spec_macro.name);
                self.spec_variable(&mut spec_macro.body);
            }
            Def::Model(model) => self.model(&mut model.val),
            Def::State(state) => {
                self.name(&mut state.name);
                self.spec_variable(&mut state.default);
            }
            Def::Extern(outside) => match outside {
                Extern::Extractor { term: name, .. }
                | Extern::Constructor { term: name, .. }
                | Extern::Const { name, .. } => self.name(name),
            },
            Def::Converter(converter) => {
                self.name(&mut converter.term);
                self.name(&mut converter.outer_ty);
            }
            _ => {}
        }
    }
}
