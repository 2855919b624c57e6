// When two jobs are equal: `==` is derived on the type, field by field. That it decides whether two jobs hold the same, and
// that it computes the test that specs/ writes down, are lemmas of proofs/Equal.antt.
