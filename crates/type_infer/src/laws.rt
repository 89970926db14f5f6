//! Laws of annotations. The function does nothing: what it ensures are theorems, which the layers above may cite.

ghost use Rattle.type_infer.specs.Laws.{AnnotationsAreTyped, AssignmentsAnnotate};

/// Annotations are typed, and they are what the assignments of types that meet all conditions give.
pub fn annotations()
    ensures typed { AnnotationsAreTyped }
    ensures assigned { AssignmentsAnnotate }
{}
