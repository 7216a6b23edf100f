//! Declarations, files, and their least faults.

/// Each kind that no construct below has.
pub(crate) const FIRST_ROWS: &str = "\
5 rows
@ => NoMain
int main(void){int a[2]={1,2,@3};return 0;} => Initialiser
int main(void){return @x;} => Undeclared
int f(int n); int main(void){return @f(20);} => NoBody
int x=1; int x; static int y; int main(void){@extern int x; return 0;} => TypeRule";

/// Specifiers (C99 6.7.1 and 6.7.2).
pub(crate) const SPECIFIERS: &str = "\
14 rows
@int int x; int main(void){return 0;} => TypeRule
@static x; int main(void){return 0;} => TypeRule
@char int x; int main(void){return 0;} => TypeRule
@signed void x; int main(void){return 0;} => TypeRule
@static extern int x; int main(void){return 0;} => TypeRule
@auto int x; int main(void){return 0;} => TypeRule
@const register int x; int main(void){return 0;} => TypeRule
int f(@static int x); int main(void){return 0;} => TypeRule
int f(@auto int x); int main(void){return 0;} => TypeRule
int main(void){for(@static int i=0;;)break; return 0;} => TypeRule
int main(void){for(@extern int i;;)break; return 0;} => TypeRule
int main(void){int @f(int x); return 0;} => TypeRule
int main(void){return (@static int)3;} => TypeRule
int main(void){return (@int int)3;} => TypeRule";

/// Objects and functions that can't be (C99 6.7.5).
pub(crate) const OBJECTS: &str = "\
15 rows
void @x; int main(void){return 0;} => TypeRule
extern void @x; int main(void){return 0;} => TypeRule
int main(void){void @x; return 0;} => TypeRule
int main(void){void @x[3]; return 0;} => TypeRule
int *@p; int main(void){return 0;} => PointerUse
extern int *@p; int main(void){return 0;} => PointerUse
int main(void){static char *@p; return 0;} => PointerUse
int main(void){void *@p; return 0;} => PointerUse
int main(void){int *@a[3]; return 0;} => PointerUse
int *@f(void); int main(void){return 0;} => PointerUse
void *@f(void){} int main(void){return 0;} => PointerUse
static int @main(void){return 0;} => TypeRule
static int @main(void); int main(void){return 0;} => TypeRule
int f(void)=@3; int main(void){return 0;} => TypeRule
int f(void)=@{3}; int main(void){return 0;} => TypeRule";

/// Parameters (C99 6.7.5.3).
pub(crate) const PARAMETERS: &str = "\
14 rows
int f(@void, int x); int main(void){return 0;} => TypeRule
int f(void @x); int main(void){return 0;} => TypeRule
int f(@void *); int main(void){return 0;} => PointerUse
int f(void @a[]); int main(void){return 0;} => PointerUse
int f(@void []); int main(void){return 0;} => PointerUse
int f(int *@a[]); int main(void){return 0;} => PointerUse
int f(@int){return 0;} int main(void){return 0;} => TypeRule
int f(int x, @char *){return 0;} int main(void){return 0;} => TypeRule
int f(int a, int @a); int main(void){return 0;} => Redeclared
int f(int a){int @a; return 0;} int main(void){return 0;} => Redeclared
int f(int a@[0]); int main(void){return 0;} => ArraySize
int f(int n, int a@[n]); int main(void){return 0;} => ArraySize
int f(int a[@n]); int main(void){return 0;} => Undeclared
int f(int a[@a]); int main(void){return 0;} => Undeclared";

/// Declarators with several faults (C99 6.7.5 and 6.7.8p3).
pub(crate) const DECLARATORS: &str = "\
36 rows
int f(void)=1+@x; int main(void){return 0;} => Undeclared
int f(void)={1,@y,z}; int main(void){return 0;} => Undeclared
int f(int a)=@a; int main(void){return 0;} => Undeclared
int f(void)=getchar(@x); int main(void){return 0;} => Undeclared
int f(void)=5@=3; int main(void){return 0;} => NotAssignable
int f(void)=@getchar(1); int main(void){return 0;} => ArgumentCount
int f(void)=@f(); int main(void){return 0;} => TypeRule
int f(void)=@1/0; int main(void){return 0;} => TypeRule
int f(void)=@{1,2}; int main(void){return 0;} => TypeRule
int f(void)=@\"x\"; int main(void){return 0;} => TypeRule
int main(void){int i; int @i(int x); return 0;} => Redeclared
int main(void){int i; int @i(void v); return 0;} => Redeclared
int main(void){static int i, @i(void); return 0;} => Redeclared
int f(int a){int @a(void); return 0;} int main(void){return 0;} => Redeclared
int main(void){int i; {int @i(int x);} return 0;} => TypeRule
int main(void){int *@f(void v); return 0;} => TypeRule
int main(void){for(int @f(void);;)break; return 0;} => TypeRule
int *@s[]; int main(void){return 0;} => PointerUse
void @a[0]; int main(void){return 0;} => TypeRule
void *@a[x]; int main(void){return 0;} => PointerUse
int main(void){int *@a[0]; return 0;} => PointerUse
int main(void){static int *@a[]; return 0;} => PointerUse
int main(void){void @a[b]; return 0;} => TypeRule
int *@f(void v); int main(void){return 0;} => PointerUse
int *@f(int a, int a){return 0;} int main(void){return 0;} => PointerUse
void *@f(static int x); int main(void){return 0;} => PointerUse
static int @main(void v); => TypeRule
int f(int *@a[0]); int main(void){return 0;} => PointerUse
int f(@void *[x]); int main(void){return 0;} => PointerUse
int f(int b@[0], int *a[0]); int main(void){return 0;} => ArraySize
int a; int a@[0]; int main(void){return 0;} => ArraySize
int main(void){int a; int a@[0]; return 0;} => ArraySize
int f(int a, int a@[0]); int main(void){return 0;} => ArraySize
int f(int @[0]){return 0;} int main(void){return 0;} => ArraySize
int a; int a(void @v); int main(void){return 0;} => TypeRule
int putchar(void @v){return 0;} int main(void){return 0;} => TypeRule";

/// Sizes of arrays (C99 6.7.5.2).
pub(crate) const ARRAY_SIZES: &str = "\
9 rows
int a@[0]; int main(void){return 0;} => ArraySize
int a@[-1]; int main(void){return 0;} => ArraySize
int a@[1/0]; int main(void){return 0;} => ArraySize
int a@[]; int main(void){return 0;} => ArraySize
extern int a@[]; int main(void){return 0;} => ArraySize
int main(void){int a@[]=3; return 0;} => ArraySize
int main(void){int a@[]=\"x\"; return 0;} => ArraySize
int main(void){int n=3; int a@[n]; return 0;} => ArraySize
int main(void){int n=3; int a@[\"x\"]; return 0;} => ArraySize";

/// Names that are declared again (C99 6.2.1, 6.2.7 and 6.9).
pub(crate) const REDECLARATIONS: &str = "\
16 rows
int a[3]; int @a[4]; int main(void){return 0;} => Redeclared
int x=1; int @x=2; int main(void){return 0;} => Redeclared
int x; char @x; int main(void){return 0;} => Redeclared
int x; int @x(void); int main(void){return 0;} => Redeclared
int x; static int @x; int main(void){return 0;} => Redeclared
static int x; int @x; int main(void){return 0;} => Redeclared
int f(void); static int @f(void){return 0;} int main(void){return 0;} => Redeclared
int f(void){return 0;} int @f(void){return 0;} int main(void){return 0;} => Redeclared
int f(int a); int @f(char a){return 0;} int main(void){return 0;} => Redeclared
int main(void){int x; int @x; return 0;} => Redeclared
int main(void){static int x; int @x; return 0;} => Redeclared
int @putchar(char c); int main(void){return 0;} => Redeclared
int @putchar; int main(void){return 0;} => Redeclared
static int @putchar(int c); int main(void){return 0;} => Redeclared
int @putchar(int c){return 0;} int main(void){return 0;} => TypeRule
int @putchar(void){return 0;} int main(void){return 0;} => Redeclared";

/// Several files (C99 6.2.2 and 6.9), and what no file defines.
pub(crate) const FILES: &str = "\
10 rows
int x=1; int main(void){return x;}$int @x=2; => Redeclared
int x=1; int main(void){return x;}$extern char @x; => Redeclared
int x=1; int main(void){return x;}$int f(void){return @x;} => Undeclared
int f(void){return 1;}$int main(void){return @f();} => Undeclared
static int f(void){return 1;}$int f(void); int main(void){return @f();} => NoBody
extern int x; int main(void){return 2+@x;} => NoBody
int main(int x){return 0;}$int f(void){return 1;}@ => NoMain
void main(void){} @ => NoMain
int main; @ => NoMain
int f(void); int g(void){return @f();} => NoBody";

/// Initialisers (C99 6.7.8).
pub(crate) const INITIALISERS: &str = "\
22 rows
int x=@f(); int main(void){return 0;} => Undeclared
int f(void){return 1;} int x=@f(); int main(void){return 0;} => Initialiser
int y; int x=@y; int main(void){return 0;} => Initialiser
int x=@1/0; int main(void){return 0;} => Initialiser
void v(void){} int x=@v(); int main(void){return 0;} => Initialiser
int x=@\"a\"; int main(void){return 0;} => Initialiser
int main(void){static int x=@x; return 0;} => Initialiser
char s[2]=@\"abc\"; int main(void){return 0;} => Initialiser
int main(void){char s[2]={@\"abc\"}; return 0;} => Initialiser
int main(void){int a[3]=@\"x\"; return 0;} => Initialiser
int main(void){int a[3]=@5; return 0;} => Initialiser
int a[2]={1,2,@3}; int main(void){return 0;} => Initialiser
int main(void){int x={1,@2}; return 0;} => Initialiser
int x={1,@2}; int main(void){return 0;} => Initialiser
int main(void){int a[3]={1,@\"x\"}; return 0;} => PointerUse
int main(void){int a[3]={@\"x\"}; return 0;} => PointerUse
int main(void){char a[3]={@(\"ab\")}; return 0;} => PointerUse
int main(void){char a[3]=@(\"ab\"); return 0;} => Initialiser
int main(void){int x=@\"x\"; return 0;} => PointerUse
int main(void){int *p=@1; return 0;} => PointerUse
void v(void){} int main(void){int x=@v(); return 0;} => TypeRule
int main(void){int a[1]={1,@y}; return 0;} => Undeclared";
