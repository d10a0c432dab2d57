//! An object and its metadata, and what it becomes at another version.
use kj_value::{JFields, JItems, Stamp, TextList, TextMap, Txt};

/// The metadata of an object, as far as it is kept: ObjectMeta of meta/v1. What holds them drops them by a call.
pub struct Meta {
    pub name: Txt,
    pub namespace: Txt,
    pub labels: TextMap,
    pub annotations: TextMap,
    pub finalizers: TextList,
    /// The `ownerReferences`, which nothing reads.
    pub owners: JItems,
    /// The `creationTimestamp`.
    pub created: Option<Stamp>,
    /// The `deletionTimestamp`.
    pub deleted: Option<Stamp>,
    /// 0 stands for none.
    pub generation: i64,
    pub resource_version: Option<Txt>,
    pub uid: Option<Txt>,
}

impl Drop for Meta {
    fn drop(self) {
        let Meta {
            name: _,
            namespace: _,
            labels: _,
            annotations: _,
            finalizers: _,
            owners: _,
            created: _,
            deleted: _,
            generation: _,
            resource_version: _,
            uid: _,
        } = self;
    }
}

/// An object: `body` has every top name but `apiVersion`, `kind` and `metadata`.
#[derive(Drop)]
pub struct Object {
    pub api_version: Txt,
    pub kind: Txt,
    pub meta: Meta,
    pub body: JFields,
}

/// What an object becomes at another version: all but its kind and the rest of its metadata, which stay.
#[derive(Drop)]
pub struct Shape {
    /// The `apiVersion`.
    pub version: Txt,
    /// The annotations.
    pub notes: TextMap,
    pub body: JFields,
}
