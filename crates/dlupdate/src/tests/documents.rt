//! The ontologies and files of the runs.

use super::File;

/// A university, but for its end: 9 terms.
pub const UNIVERSITY: &str = "Prefix(:=<http://u.example/>)
Prefix(xsd:=<http://www.w3.org/2001/XMLSchema#>)
Ontology(<http://u.example/onto>
Declaration(Class(:Person))
Declaration(Class(:Staff))
Declaration(Class(:Prof))
Declaration(Class(:Student))
Declaration(Class(:Course))
Declaration(ObjectProperty(:teaches))
Declaration(ObjectProperty(:headOf))
Declaration(ObjectProperty(:mentors))
Declaration(DataProperty(:badge))
SubClassOf(:Staff :Person)
SubClassOf(:Prof :Staff)
DisjointClasses(:Student :Staff)
ObjectPropertyDomain(:teaches :Prof)
ObjectPropertyRange(:teaches :Course)
FunctionalObjectProperty(:headOf)
AsymmetricObjectProperty(:mentors)
FunctionalDataProperty(:badge)
DataPropertyRange(:badge xsd:integer)
";

/// The end of an ontology.
pub const END: &str = ")\n";

/// The university, with no assertion.
pub const EMPTY: File = ("u.ofn", &[UNIVERSITY, END]);

/// The university, in which ann is a professor.
pub const OF_ANN: File = ("u.ofn", &[UNIVERSITY, "ClassAssertion(:Prof :ann)\n", END]);

/// The university, in which ann teaches.
pub const OF_TEACHING: File = (
    "u.ofn",
    &[
        UNIVERSITY,
        "ObjectPropertyAssertion(:teaches :ann :cs1)\n",
        END,
    ],
);

/// The university, in which ann is a professor and a student.
pub const TORN: File = (
    "u.ofn",
    &[
        UNIVERSITY,
        "ClassAssertion(:Prof :ann)\nClassAssertion(:Student :ann)\n",
        END,
    ],
);

pub const APPLY: &[&str] = &["apply", "u.ofn", "u.ru"];

pub const DELETES_PROF: File = (
    "u.ru",
    &["DELETE DATA { <http://u.example/ann> a <http://u.example/Prof> }"],
);

pub const INSERTS_STUDENT: File = (
    "u.ru",
    &["INSERT DATA { <http://u.example/ann> a <http://u.example/Student> }\n"],
);

/// A register of employees, with annotations, comments and one assertion.
pub const REGISTER: File = (
    "reg.ofn",
    &[
        "Prefix(:=<http://r.example/>)
Prefix(owl:=<http://www.w3.org/2002/07/owl#>)
Prefix(rdfs:=<http://www.w3.org/2000/01/rdf-schema#>)
Prefix(xsd:=<http://www.w3.org/2001/XMLSchema#>)

Ontology(<http://r.example/onto> <http://r.example/onto/1.0>
Annotation(rdfs:comment \"Staff # register\"@en)

Declaration(Class(:Employee))
Declaration(Class(:Person))
Declaration(Class(:Team))
Declaration(ObjectProperty(:memberOf))
Declaration(DataProperty(:since))
Declaration(AnnotationProperty(:note))
Declaration(NamedIndividual(:eva))

############################
#   Object Properties
############################

# Object Property: :memberOf (member of)

AnnotationAssertion(rdfs:label :memberOf \"member of\")
ObjectPropertyDomain(:memberOf :Person)
ObjectPropertyRange(:memberOf :Team)

SubClassOf(Annotation(:note \"checked\") :Employee ObjectIntersectionOf(:Person ObjectSomeValuesFrom(:memberOf owl:Thing)))
DisjointClasses(:Person :Team)
ClassAssertion(:Employee :eva)
)
",
    ],
);
