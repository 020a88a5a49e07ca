//! Copies of definitions and their parts. A copy is the same tree, positions included, and each
//! `clone` fails only if memory runs out.

ghost use Rattle.std.specs.Prelude.{◌≡◌, IfOk};
ghost use Rattle.isle_ast.specs.TreeView.{attribute_of, conversion_of, declaration_of};
ghost use Rattle.isle_ast.specs.TreeView.{definition_of, extern_of, fields_of, form_of};
ghost use Rattle.isle_ast.specs.TreeView.{indexed_field_of, instantiation_of, kind_of};
ghost use Rattle.isle_ast.specs.TreeView.{model_content_of, model_definition_of, named_field_of};
ghost use Rattle.isle_ast.specs.TreeView.{signature_of, struct_fields_of, target_of};
ghost use Rattle.isle_ast.specs.TreeView.{tuple_fields_of, type_content_of, type_definition_of};
ghost use Rattle.isle_ast.specs.TreeView.{variant_of};

use crate::ast::{
    Attr, AttrKind, AttrTarget, Converter, Decl, Def, Extern, Fields, Form, Instantiation, Model,
    ModelValue, Signature, StructField, StructFields, TupleField, TupleFields, TypeDef, TypeValue,
    Variant,
};
use std::alloc::AllocError;

impl Clone for Def {
    ghost is_clone = { λ def copy. definition_of copy ≡ definition_of def };

    fn clone(&self) -> Result<Def, AllocError> {
        match self {
            Def::Pragma(pragma) => match *pragma {},
            Def::TypeDef(ty) => Ok(Def::TypeDef(ty.clone()?)),
            Def::Rule(rule) => Ok(Def::Rule(rule.clone()?)),
            Def::Extractor(extractor) => Ok(Def::Extractor(extractor.clone()?)),
            Def::Decl(decl) => Ok(Def::Decl(decl.clone()?)),
            Def::Attr(attr) => Ok(Def::Attr(attr.clone()?)),
            Def::Spec(spec) => Ok(Def::Spec(spec.clone()?)),
            Def::SpecMacro(spec_macro) => Ok(Def::SpecMacro(spec_macro.clone()?)),
            Def::Model(model) => Ok(Def::Model(model.clone()?)),
            Def::State(state) => Ok(Def::State(state.clone()?)),
            Def::Form(form) => Ok(Def::Form(form.clone()?)),
            Def::Instantiation(instantiation) => Ok(Def::Instantiation(instantiation.clone()?)),
            Def::Extern(external) => Ok(Def::Extern(external.clone()?)),
            Def::Converter(converter) => Ok(Def::Converter(converter.clone()?)),
        }
    }
}

impl Clone for TypeDef {
    ghost is_clone = { λ ty copy. type_definition_of copy ≡ type_definition_of ty };

    fn clone(&self) -> Result<TypeDef, AllocError> {
        Ok(TypeDef {
            name: self.name.clone()?,
            is_extern: self.is_extern,
            is_nodebug: self.is_nodebug,
            ty: self.ty.clone()?,
            pos: self.pos,
        })
    }
}

impl Clone for TypeValue {
    ghost is_clone = { λ ty copy. type_content_of copy ≡ type_content_of ty };

    fn clone(&self) -> Result<TypeValue, AllocError> {
        match self {
            TypeValue::Primitive(name, pos) => Ok(TypeValue::Primitive(name.clone()?, *pos)),
            TypeValue::Enum(variants, pos) => Ok(TypeValue::Enum(variants.clone()?, *pos)),
            TypeValue::Struct(fields, pos) => Ok(TypeValue::Struct(fields.clone()?, *pos)),
        }
    }
}

impl Clone for Variant {
    ghost is_clone = { λ variant copy. variant_of copy ≡ variant_of variant };

    fn clone(&self) -> Result<Variant, AllocError> {
        Ok(Variant {
            name: self.name.clone()?,
            fields: self.fields.clone()?,
            pos: self.pos,
        })
    }
}

impl Clone for Fields {
    ghost is_clone = { λ fields copy. fields_of copy ≡ fields_of fields };

    fn clone(&self) -> Result<Fields, AllocError> {
        match self {
            Fields::Unit => Ok(Fields::Unit),
            Fields::Struct(fields) => Ok(Fields::Struct(fields.clone()?)),
            Fields::Tuple(fields) => Ok(Fields::Tuple(fields.clone()?)),
        }
    }
}

impl Clone for StructFields {
    ghost is_clone = { λ fields copy. struct_fields_of copy ≡ struct_fields_of fields };

    fn clone(&self) -> Result<StructFields, AllocError> {
        Ok(StructFields {
            fields: self.fields.clone()?,
            pos: self.pos,
        })
    }
}

impl Clone for StructField {
    ghost is_clone = { λ field copy. named_field_of copy ≡ named_field_of field };

    fn clone(&self) -> Result<StructField, AllocError> {
        Ok(StructField {
            name: self.name.clone()?,
            ty: self.ty.clone()?,
            pos: self.pos,
        })
    }
}

impl Clone for TupleFields {
    ghost is_clone = { λ fields copy. tuple_fields_of copy ≡ tuple_fields_of fields };

    fn clone(&self) -> Result<TupleFields, AllocError> {
        Ok(TupleFields {
            fields: self.fields.clone()?,
            pos: self.pos,
        })
    }
}

impl Clone for TupleField {
    ghost is_clone = { λ field copy. indexed_field_of copy ≡ indexed_field_of field };

    fn clone(&self) -> Result<TupleField, AllocError> {
        Ok(TupleField {
            index: self.index,
            ty: self.ty.clone()?,
            pos: self.pos,
        })
    }
}

impl Clone for Decl {
    ghost is_clone = { λ decl copy. declaration_of copy ≡ declaration_of decl };

    fn clone(&self) -> Result<Decl, AllocError> {
        Ok(Decl {
            term: self.term.clone()?,
            arg_tys: self.arg_tys.clone()?,
            ret_ty: self.ret_ty.clone()?,
            pure: self.pure,
            multi: self.multi,
            partial: self.partial,
            rec: self.rec,
            pos: self.pos,
        })
    }
}

impl Clone for Instantiation {
    ghost is_clone = { λ original copy. instantiation_of copy ≡ instantiation_of original };

    fn clone(&self) -> Result<Instantiation, AllocError> {
        Ok(Instantiation {
            term: self.term.clone()?,
            form: self.form.clone()?,
            signatures: self.signatures.clone()?,
            tags: self.tags.clone()?,
            pos: self.pos,
        })
    }
}

impl Clone for Attr {
    ghost is_clone = { λ attr copy. attribute_of copy ≡ attribute_of attr };

    fn clone(&self) -> Result<Attr, AllocError> {
        Ok(Attr {
            target: self.target.clone()?,
            kinds: self.kinds.clone()?,
            pos: self.pos,
        })
    }
}

impl Clone for AttrTarget {
    ghost is_clone = { λ target copy. target_of copy ≡ target_of target };

    fn clone(&self) -> Result<AttrTarget, AllocError> {
        match self {
            AttrTarget::Term(name) => Ok(AttrTarget::Term(name.clone()?)),
            AttrTarget::Rule(name) => Ok(AttrTarget::Rule(name.clone()?)),
        }
    }
}

impl Clone for AttrKind {
    ghost is_clone = { λ kind copy. kind_of copy ≡ kind_of kind };

    fn clone(&self) -> Result<AttrKind, AllocError> {
        match self {
            AttrKind::Chain => Ok(AttrKind::Chain),
            AttrKind::Priority => Ok(AttrKind::Priority),
            AttrKind::Tag(name) => Ok(AttrKind::Tag(name.clone()?)),
        }
    }
}

impl Clone for ModelValue {
    ghost is_clone = { λ val copy. model_content_of copy ≡ model_content_of val };

    fn clone(&self) -> Result<ModelValue, AllocError> {
        match self {
            ModelValue::TypeValue(ty) => Ok(ModelValue::TypeValue(ty.clone()?)),
            ModelValue::ConstValue(value) => Ok(ModelValue::ConstValue(value.clone()?)),
        }
    }
}

impl Clone for Model {
    ghost is_clone = { λ model copy. model_definition_of copy ≡ model_definition_of model };

    fn clone(&self) -> Result<Model, AllocError> {
        Ok(Model {
            name: self.name.clone()?,
            val: self.val.clone()?,
        })
    }
}

impl Clone for Signature {
    ghost is_clone = { λ signature copy. signature_of copy ≡ signature_of signature };

    fn clone(&self) -> Result<Signature, AllocError> {
        Ok(Signature {
            args: self.args.clone()?,
            ret: self.ret.clone()?,
            pos: self.pos,
        })
    }
}

impl Clone for Form {
    ghost is_clone = { λ form copy. form_of copy ≡ form_of form };

    fn clone(&self) -> Result<Form, AllocError> {
        Ok(Form {
            name: self.name.clone()?,
            signatures: self.signatures.clone()?,
            pos: self.pos,
        })
    }
}

impl Clone for Extern {
    ghost is_clone = { λ external copy. extern_of copy ≡ extern_of external };

    fn clone(&self) -> Result<Extern, AllocError> {
        match self {
            Extern::Extractor {
                term,
                func,
                pos,
                infallible,
            } => Ok(Extern::Extractor {
                term: term.clone()?,
                func: func.clone()?,
                pos: *pos,
                infallible: *infallible,
            }),
            Extern::Constructor { term, func, pos } => Ok(Extern::Constructor {
                term: term.clone()?,
                func: func.clone()?,
                pos: *pos,
            }),
            Extern::Const { name, ty, pos } => Ok(Extern::Const {
                name: name.clone()?,
                ty: ty.clone()?,
                pos: *pos,
            }),
        }
    }
}

impl Clone for Converter {
    ghost is_clone = { λ converter copy. conversion_of copy ≡ conversion_of converter };

    fn clone(&self) -> Result<Converter, AllocError> {
        Ok(Converter {
            term: self.term.clone()?,
            inner_ty: self.inner_ty.clone()?,
            outer_ty: self.outer_ty.clone()?,
            pos: self.pos,
        })
    }
}
